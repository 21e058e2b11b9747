//! What the words after the program's name ask for.
//!
//! ```rust
//! use sup_command_line::{Request, is_want_of_memory, read_words};
//!
//! match read_words(alloc, words.as_slice()) {
//!     Ok(Request::Simulate { weighing, config }) => simulate(weighing, config),
//!     Ok(Request::Cluster { weighing, config }) => cluster(weighing, config),
//!     Ok(Request::Place { weighing }) => place(weighing),
//!     Ok(Request::Inspect { weighing }) => inspect(weighing),
//!     Err(error) if is_want_of_memory(&error) => end(3),
//!     Err(_) => end(2),
//! }
//! ```
#![tactic(auto)]

mod commands;
mod number;
mod options;
mod read;
mod request;

pub use read::{is_want_of_memory, read_words};
pub use request::{Request, Weighing};
