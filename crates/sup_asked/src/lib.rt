//! What the lines of a host ask of its node.
#![tactic(auto)]

pub mod asked;

pub use asked::{Asked, read_asked};
