//! The local supervisor: what a node keeps running, and what becomes of exits.
#![tactic(auto)]

pub mod begun;
pub mod change;
pub mod effect;
mod exits;
pub mod fault;
mod keeping;
pub mod kept;
mod kept_entry;
pub mod kept_list;
mod late;
pub mod laws;
pub mod leaving;
pub mod plan;
pub mod planned_change;
mod remaining;
mod settled;
pub mod supervisor;
mod touching;
pub mod verdict;
pub mod wanted;
pub mod window;

pub use change::Change;
pub use effect::{Effect, Effects, Incarnation};
pub use fault::SupFault;
pub use kept::Entry;
pub use kept_list::KeptList;
pub use kept_list::walk::KeptWalk;
pub use leaving::{Leaving, Ruling};
pub use plan::Plan;
pub use planned_change::PlannedChange;
pub use supervisor::Supervisor;
pub use verdict::Verdict;
pub use wanted::Wanted;
pub use window::Window;
