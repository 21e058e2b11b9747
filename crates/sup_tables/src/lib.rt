//! The replicated tables of members, children and names.
#![tactic(auto)]

mod adding;
mod after;
mod delta;
mod edits;
pub mod fault;
mod from_rows;
mod joining;
pub mod laws;
pub mod lent;
mod one_operation;
mod opening;
mod openness;
pub mod planning;
mod putting;
mod readers;
mod removing;
pub mod row;
mod row_order;
mod row_parts;
mod table;
pub mod tables;

pub use fault::{PutFault, RowsFault};
pub use lent::{LentEntry, LentRow};
pub use opening::OpenTables;
pub use planning::{PlannedTables, Touched};
pub use row::{Entry, Row};
pub use table::{Loser, Winner};
pub use tables::Tables;
