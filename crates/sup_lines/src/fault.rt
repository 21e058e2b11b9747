//! Why a line or a script was not read.

ghost use Rattle.std.specs.Prelude.{◌≡◌};
ghost use Rattle.sup_lines.specs.Words.{of_text};
ghost use Rattle.sup_lines.specs.declared.fault.LineFault.TheVariants.{OutOfMemory};
ghost use Rattle.sup_lines.specs.declared.fault.ScriptFault.TheVariants.{OutOfMemory as NoMemory};

use std::alloc::{AllocError, AllocFailed};
use sup_specs::TextFault;
use thiserror::Error;

/// Why a line was not read.
#[derive(Clone, Copy, Debug, PartialEq, Eq, Error)]
pub enum LineFault {
    /// It has no form.
    #[error("the line is bad")]
    Bad,
    /// Memory was refused.
    #[error("out of memory")]
    OutOfMemory,
}

impl From<AllocError> for LineFault {
    ghost from_gives = { λ _ e. e ≡ OutOfMemory };

    fn from(_error: AllocError) -> LineFault {
        LineFault::OutOfMemory
    }
}

impl<T: Drop> From<AllocFailed<T>> for LineFault {
    ghost from_gives = { λ _ e. e ≡ OutOfMemory };

    fn from(_error: AllocFailed<T>) -> LineFault {
        LineFault::OutOfMemory
    }
}

impl From<TextFault> for LineFault {
    ghost from_gives = { λ t e. e ≡ of_text t };

    fn from(fault: TextFault) -> LineFault {
        match fault {
            TextFault::Empty | TextFault::TooLong | TextFault::BadByte(_) => LineFault::Bad,
            TextFault::OutOfMemory => LineFault::OutOfMemory,
        }
    }
}

impl LineFault {
    ghost use Rattle.sup_lines.specs.Script.{fault_at};

    /// The fault of a script whose line of this number was not read.
    pub fn at(self, number: u64) -> ScriptFault
        ensures { result ≡ fault_at number self }
    {
        match self {
            LineFault::Bad => ScriptFault::BadLine(number),
            LineFault::OutOfMemory => ScriptFault::OutOfMemory,
        }
    }
}

/// Why a script was not read.
#[derive(Clone, Copy, Debug, PartialEq, Eq, Error)]
pub enum ScriptFault {
    /// The first line that has no form or is out of its place, from 1, or 0 where all are skipped.
    #[error("bad line {0}")]
    BadLine(u64),
    /// Memory was refused.
    #[error("out of memory")]
    OutOfMemory,
}

impl From<AllocError> for ScriptFault {
    ghost from_gives = { λ _ e. e ≡ NoMemory };

    fn from(_error: AllocError) -> ScriptFault {
        ScriptFault::OutOfMemory
    }
}

impl<T: Drop> From<AllocFailed<T>> for ScriptFault {
    ghost from_gives = { λ _ e. e ≡ NoMemory };

    fn from(_error: AllocFailed<T>) -> ScriptFault {
        ScriptFault::OutOfMemory
    }
}
