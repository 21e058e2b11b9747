//! Which member of the cluster runs a child: rendezvous hashing, also called highest random weight.
//!
//! Each node answers for itself, with no table and no message: nodes that know the same members
//! place each child alike, and few children move when members come and go. [`place`] knows of members
//! only their names, and takes no memory. Who wants the places of many children again and again keeps them
//! in an `Assignment`.
//!
//! ```rust
//! use sup_placement::{Sha256Weigh, place};
//! use sup_specs::{ChildId, NodeName};
//!
//! let members = [NodeName::parse("a")?, NodeName::parse("b")?];
//! let id = ChildId::parse(rt.alloc(), "web")?;
//! let runner = place(&Sha256Weigh, &members, &id);
//! ```
#![tactic(auto)]

pub mod assignment;
pub mod laws;
pub mod rendezvous;
pub mod weigh;
pub mod weighers;

pub use assignment::Assignment;
pub use rendezvous::place;
pub use weigh::Weigh;
pub use weighers::{FlatWeigh, Sha256Weigh};
