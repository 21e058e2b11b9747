//! A plan's nodes, each run by threads of its own.
//!
//! Every node has a driver, which gives the node its commands in their order, and a receiver for each other node, which gives it the
//! messages that come from there. They share the node's gate, so that all that happens at the node is one history. What the node
//! sends goes through links that lose, double and hold messages as the plan's scripts say.
#![tactic(auto)]

mod run_histories;
mod running;

pub use run_histories::RunHistories;
pub use running::run;
pub use sup_driving::{Checkpoint, PlannedRun, Quiet, Runner};
pub use sup_posts::{Request, Requests};
