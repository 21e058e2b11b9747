//! The program `supdraw` but for its `main`: from its arguments and its input to its output and status.
#![tactic(auto)]

mod run;
mod script;
mod words;

pub use run::{USAGE, run_with};
pub use script::draw;
pub use words::words_of;
