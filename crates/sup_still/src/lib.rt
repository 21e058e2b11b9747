//! What a stored image tells, with no node that goes on from it.
//!
//! ```rust
//! use sup_still::Still;
//!
//! let still = Still::read(alloc, keeper.stored())?;
//! let (boot, count) = (still.boot(), still.count());
//! ```
#![tactic(auto)]

pub mod still;

pub use still::Still;
