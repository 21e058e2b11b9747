//! What a node tells its host.
#![tactic(auto)]

pub mod told;

pub use told::{bad_text, ended_text, told_text};
