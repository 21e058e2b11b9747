//! Why lines are no history.

use std::alloc::AllocError;
use thiserror::Error;

/// Why lines are no history, or memory was refused.
#[derive(Clone, Copy, Debug, PartialEq, Eq, Error)]
pub enum HistoryFault {
    /// There are no lines: nothing was ever written whole.
    #[error("empty history")]
    Empty,
    /// The line with this number may not stand behind the one before it, or it is the first and no begin.
    #[error("bad history line {0}")]
    BadLine(u64),
    /// Memory was refused.
    #[error("out of memory")]
    OutOfMemory,
}

impl From<AllocError> for HistoryFault {
    ghost use Rattle.std.specs.Prelude.{◌≡◌};
    ghost use Rattle.sup_history_text.specs.declared.fault.HistoryFault.TheVariants.{OutOfMemory};

    ghost from_gives = { λ _ fault. fault ≡ OutOfMemory };

    fn from(_error: AllocError) -> HistoryFault {
        HistoryFault::OutOfMemory
    }
}
