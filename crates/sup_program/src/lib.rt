//! The commands of `supctl` that wait for nobody: from its words and its input to its output and status.
#![tactic(auto)]

pub mod laws;
mod line;
mod play;
pub mod run;
mod simulate;

pub use run::{Options, Ran, run_plain};
