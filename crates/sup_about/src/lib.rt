//! What the programs answer about themselves: how they are called, and which version they are.
//!
//! ```rust
//! use sup_about::{SystemBeside, SystemRoom, run_asking};
//!
//! let room = SystemRoom { alloc };
//! let beside = SystemBeside { rt: &rt };
//! let exit = run_asking(alloc, program, env::args(&rt), room, beside, rt.stdin(), rt.stdout(), &mut rt.stderr());
//! exit.code
//! ```
#![tactic(auto)]

pub mod asked;
pub mod asking;
pub mod beside;
pub mod help;
pub mod room;
pub mod start;
pub mod telling;
pub mod version;

pub use asked::{Asked, Command, Program, asked_in};
pub use asking::{Exit, run_asking};
pub use beside::{Beside, SystemBeside};
pub use room::{Room, SystemRoom};
pub use start::Start;
pub use telling::tell;
