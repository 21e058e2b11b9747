//! Jobs: commands that read an input and write an output, and how they end.
#![tactic(auto)]

pub mod fault;
pub mod input;
pub mod output;

pub use fault::{Ended, Fault, ImageFault, finish, report};
pub use input::{InputFault, LIMIT, Questions, read_input};
pub use output::{DeviceFault, put_all};
