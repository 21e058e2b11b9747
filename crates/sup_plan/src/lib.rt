//! Plans of runs in which nodes are threads, and the histories that such runs give back.
#![tactic(auto)]

pub mod checking;
pub mod histories;
mod parts;
pub mod plan;

pub use checking::is_plan;
pub use histories::{Histories, History};
pub use plan::{Command, Plan, Route};
