//! The threads of a running cluster: what a node's driver does, and the receivers of its links.
//!
//! Every node has a driver, which gives it its commands in their order and puts the letters of its answers into the links to the other
//! nodes. Behind each of these links a receiver takes what comes, and gives it to the node there. A receiver puts no letters: those that
//! its node answers stand in the node's history, whose letters that node's driver puts, each once and in the history's order, behind each
//! of its commands and once more behind the last. What is to be done with a node's children is asked of a runner.
//! A thread that meets a fault goes on for the others: a driver ends its links, a receiver takes to its link's end, unless it is refused
//! memory, and drops its end.
#![tactic(auto)]

mod acting;
mod driving;
mod field;
mod gathering;
mod launched;
mod launching;
mod planned_run;
mod receiving;
mod runner;
mod shipping;
mod teams;
mod wires;
mod work;

pub use launched::{Launched, RunBy};
pub use launching::launch;
pub use planned_run::PlannedRun;
pub use runner::{Checkpoint, Quiet, Runner};
