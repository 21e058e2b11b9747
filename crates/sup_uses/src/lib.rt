//! How a program calls the library: a station behind a keeper of its own, two stations that exchange letters by hand, a node that two
//! threads share, and a run of a plan with a runner of its own.
#![tactic(auto)]

pub mod keeping;
pub mod letters;
pub mod running;
pub mod sharing;

pub use keeping::{TwoImages, keep};
pub use letters::exchange;
pub use running::{Starts, run_counted};
pub use sharing::share;
