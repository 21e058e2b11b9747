//! What the command `cluster` reads and prints: the plan that its input says, what the nodes of a world know, and its faults.
#![tactic(auto)]

pub mod fault;
pub mod plan;
pub mod telling;
pub mod text;

pub use fault::{ClusterFault, of_certify, of_run};
pub use plan::{plan_of, read_plan};
pub use telling::{finish, report};
pub use text::cluster_text;
