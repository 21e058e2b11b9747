//! Join semilattices, dots and causal contexts.
#![tactic(auto)]

mod absorb;
pub mod below;
pub mod context;
pub mod dot;
mod entries;
pub mod lattice;
pub mod least;
pub mod map_join;
pub mod max_count;
pub mod merge;
pub mod parts;
mod sorted_dots;

pub use below::{Below, all_below};
pub use context::CausalContext;
pub use dot::Dot;
pub use lattice::Lattice;
pub use least::Least;
pub use map_join::MapJoin;
pub use max_count::MaxCount;
pub use merge::walk::{KeyByKey, lesser_key};
pub use merge::{Merge, keys_rise, merge_maps};
pub use parts::PartsFault;
