//! Jobs that run at once, each in a thread of its own, where their number is known only at run time.
//!
//! What each job gave is known by what the work says of it, place by place: `run_all` gives a result for each job, in the order of the
//! jobs, and `run_teams` the results of jobs that come in teams, team by team. Jobs may wait for one another, since none has to wait for a
//! thread: each has one of its own, or the run is refused.
//!
//! ```rust
//! use sup_crew::{Work, run_all};
//!
//! struct Doubling;
//!
//! impl Work<u32, u64> for Doubling {
//!     ghost takes = { λ work job. ⊤ };
//!
//!     ghost gives = { λ work job result. result ≡ 2 * job };
//!
//!     fn run(&self, job: u32) -> u64 {
//!         2 * job as u64
//!     }
//! }
//!
//! // Gives 2, 4 and 6.
//! run_all(&rt, rt.alloc(), [1, 2, 3].to_vec(rt.alloc())?, &Doubling)?;
//! ```
#![tactic(auto)]

mod all;
mod starts;
mod team;
mod team_threads;
mod teams;
mod work;

pub use all::run_all;
pub use team::Team;
pub use teams::run_teams;
pub use work::Work;
