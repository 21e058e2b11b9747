//! The command `cluster`: a script's nodes run by threads, and what they know once they have settled.
//!
//! What the threads did is judged before anything is printed: only a run that the world of the script's nodes makes too is told, and what
//! is told is what that world's nodes know after they have exchanged all.
#![tactic(auto)]

pub mod certified;
mod cluster;
pub mod laws;
mod told;
mod verdict;

pub use certified::plan_text;
pub use cluster::run_cluster;
pub use told::{Told, Untold};
pub use verdict::judged_text;
