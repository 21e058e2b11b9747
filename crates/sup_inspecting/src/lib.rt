//! The command `inspect`: what a stored image tells.
#![tactic(auto)]

pub mod fault;
pub mod inspect;

pub use fault::fault_of;
pub use inspect::inspect_image;
