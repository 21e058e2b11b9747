//! Why a run gives no histories.
use crate::thread_fault::ThreadFault;
use std::alloc::AllocError;
use thiserror::Error;

/// Why a run gives no histories.
#[derive(Clone, Copy, Debug, PartialEq, Eq, Error)]
pub enum RunFault {
    #[error("no such plan can be run")]
    BadPlan,
    #[error("a history is full")]
    HistoryFull,
    #[error("a link is closed")]
    LinkClosed,
    /// A thread that can't be made counts as such.
    #[error("out of memory")]
    OutOfMemory,
}

impl From<AllocError> for RunFault {
    ghost use Rattle.std.specs.Prelude.{◌≡◌};
    ghost use Rattle.sup_posts.specs.declared.fault.RunFault.TheVariants.{OutOfMemory};

    ghost from_gives = { λ _ f. f ≡ OutOfMemory };

    fn from(_error: AllocError) -> RunFault {
        RunFault::OutOfMemory
    }
}

impl From<ThreadFault> for RunFault {
    ghost use Rattle.std.specs.Prelude.{◌≡◌};
    ghost use Rattle.sup_posts.specs.Faults.{of_thread};

    ghost from_gives = { λ e f. f ≡ of_thread e };

    fn from(fault: ThreadFault) -> RunFault {
        match fault {
            ThreadFault::HistoryFull => RunFault::HistoryFull,
            ThreadFault::LinkClosed => RunFault::LinkClosed,
            ThreadFault::OutOfMemory => RunFault::OutOfMemory,
        }
    }
}
