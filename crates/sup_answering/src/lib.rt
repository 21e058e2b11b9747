//! A node that answers the lines of its host.
#![tactic(auto)]

pub mod begin;
pub mod filter;
mod members;
mod peers;
pub mod serving;

pub use begin::{BeginFault, Begun, Unbegun};
pub use filter::Filter;
pub use serving::serve;
