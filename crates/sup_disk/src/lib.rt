//! A keeper of a node's image in a file, which a loss of power leaves whole.
#![tactic(auto)]

pub mod disk;
pub mod keeping;
pub mod lock;
pub mod mem_disk;
pub mod replacing;
pub mod system;

pub use disk::Disk;
pub use keeping::{DiskKeeper, ImageKeeper, Unopened};
pub use lock::{FileLock, LockFault};
pub use mem_disk::{MemDisk, Next};
pub use replacing::{ReplaceFault, replace_on};
pub use system::SystemDisk;
