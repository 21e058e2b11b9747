//! For tests: what is printed of nodes and refusals, asked for once more where memory is refused.
#![tactic(auto)]

mod texts;

pub use texts::{led, refused, shown};
