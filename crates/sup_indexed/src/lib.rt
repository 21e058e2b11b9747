//! Maps that are joined in place in three steps (a plan, room for it, the change), and rows that are found by their dots.
#![tactic(auto)]

mod after;
mod changing;
mod comparing;
mod differing;
mod exchanging;
pub mod indexed_map;
mod joining;
mod listing;
mod opening;
pub mod place;
pub mod planning;
pub mod property;
mod touched;
mod touching;

pub use indexed_map::IndexedMap;
pub use opening::ReadyMap;
pub use place::Place;
pub use planning::{Looks, PlannedMap};
pub use property::Property;
