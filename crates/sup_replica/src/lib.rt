//! One node: what happens to it, what it answers, and the definitions of its steps.
#![tactic(auto)]

pub mod config;
mod copies;
pub mod done;
pub mod event;
pub mod letter;
pub mod refusal;

pub use config::Config;
pub use done::{Done, Dots, Reply};
pub use event::{Act, Event};
pub use letter::{Letter, LetterKind, MessageText};
pub use refusal::Refusal;
