//! What the threads of a run are given and hand back.
#![tactic(auto)]

pub mod fault;
pub mod jobs;
mod node_call;
pub mod request;
pub mod shared_node;
pub mod telling;
pub mod thread_fault;

pub use fault::RunFault;
pub use jobs::{Arrived, Drive, Driven, Lane};
pub use request::{Request, Requests};
pub use shared_node::{Gate, Seat, SharedNode};
pub use telling::{graver, gravest};
pub use thread_fault::ThreadFault;
