//! The model of a world of nodes, and why the code's world follows it.
#![tactic(auto)]

pub mod laws;
pub mod step;

pub use step::Step;
