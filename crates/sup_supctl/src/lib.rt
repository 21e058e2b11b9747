//! The program `supctl` but for its `main`: from its arguments and its input to its output and status.
#![tactic(auto)]

pub mod run;
pub mod started;
pub mod words;

pub use started::run_started;
