//! Scripts of runs of threads as they are read: the nodes, the scripts of their links, and their commands.
#![tactic(auto)]

mod command;
mod line;
mod link;
mod nodes;
mod script;
mod verdict;

pub use line::PlanLine;
pub use nodes::{LEAST_NODES, MOST_NODES};
pub use script::{PlanScript, read_plan_script};
