//! Both ends of a run by threads: what its drivers are given, and the histories, of what they hand back.
//!
//! A plan's nodes are opened, each with a gate; passes are cut for the threads, and links made between the nodes. Once the threads have
//! ended, the passes of each gate are joined, and the gate is closed.
#![tactic(auto)]

pub mod closing;
mod dealing;
pub mod drives;
mod joining;
pub mod opening;

pub use closing::finish;
pub use drives::make_drives;
pub use opening::open_posts;
