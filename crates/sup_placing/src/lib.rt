//! The command `place`: where each of some children is placed.
#![tactic(auto)]

pub mod fault;
pub mod place;
pub mod placing;
pub mod text;

pub use fault::fault_of;
pub use place::place_children;
