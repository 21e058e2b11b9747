//! Where images are.

ghost use Rattle.std.specs.Prelude.{ℕ, List, Result, IfOk};
ghost use Rattle.sup_disk.specs.declared.lock.LockFault.{LockFault};
ghost use Rattle.sup_supd.specs.LockedFiles.{IsLockedAt};

use crate::locked::LockedFile;
use std::alloc::Global;
use sup_disk::{Disk, LockFault};

/// Where images are, each at a path. It is used up where one is taken, so a run that has it takes one at most.
pub trait Images: Drop {
    /// An image that was taken. Nobody else has it as long as this lives.
    type Disk: Disk;

    // What may come of taking the image at this path.
    ghost takes: { Self → List ℕ → Result Self.Disk LockFault → Type 0 };

    /// Takes the image at this path.
    ///
    /// # Errors
    ///
    /// As [`LockFault`] tells.
    fn take(self, alloc: Global, path: &str) -> Result<Self::Disk, LockFault>
        ensures { takes self path.now result };
}

/// Files of the file system, each taken by the lock beside it.
#[derive(Drop)]
pub struct SystemImages<'a> {
    pub rt: &'a HostRuntime,
}

impl Images for SystemImages<'_> {
    type Disk = LockedFile;

    // What files there are is trusted, and which of them are locked.
    ghost takes = { λ _ path result. IfOk result (λ locked. IsLockedAt path locked) };

    fn take(self, alloc: Global, path: &str) -> Result<LockedFile, LockFault> {
        LockedFile::at(alloc, self.rt, path)
    }
}
