//! For tests: a keeper that lacks memory at one call.
#![tactic(auto)]

mod scarce;

pub use scarce::Scarce;
