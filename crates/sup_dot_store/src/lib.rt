//! Stores of rows under contexts of dots.
#![tactic(auto)]

pub mod both;
pub mod causal;
mod dot_by_dot;
pub mod dot_fun;
pub mod dot_map;
pub mod dot_store;
mod row_lists;
mod row_runs;
pub mod short_values;
pub mod stores_under;
mod values_under;

pub use both::Both;
pub use causal::{Causal, NotCovered};
pub use dot_fun::DotFun;
pub use dot_map::DotMap;
pub use dot_store::DotStore;
pub use short_values::ShortValues;
pub use stores_under::{StoresIn, StoresUnder};
