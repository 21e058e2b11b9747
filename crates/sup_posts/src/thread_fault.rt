//! Why a thread of a run gives up.
use std::alloc::AllocError;
use sup_links::PutFault;
use thiserror::Error;

/// Why a thread of a run gives up.
#[derive(Clone, Copy, Debug, PartialEq, Eq, Error)]
pub enum ThreadFault {
    #[error("a history is full")]
    HistoryFull,
    #[error("a link is closed")]
    LinkClosed,
    #[error("out of memory")]
    OutOfMemory,
}

impl From<AllocError> for ThreadFault {
    ghost use Rattle.std.specs.Prelude.{◌≡◌};
    ghost use Rattle.sup_posts.specs.declared.thread_fault.ThreadFault.TheVariants.{OutOfMemory};

    ghost from_gives = { λ _ f. f ≡ OutOfMemory };

    fn from(_error: AllocError) -> ThreadFault {
        ThreadFault::OutOfMemory
    }
}

impl From<PutFault> for ThreadFault {
    ghost use Rattle.std.specs.Prelude.{◌≡◌};
    ghost use Rattle.sup_posts.specs.Faults.{of_put};

    ghost from_gives = { λ e f. f ≡ of_put e };

    fn from(fault: PutFault) -> ThreadFault {
        match fault {
            PutFault::Closed => ThreadFault::LinkClosed,
            PutFault::OutOfMemory => ThreadFault::OutOfMemory,
        }
    }
}
