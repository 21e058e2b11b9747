//! Why a text is refused.
ghost use Rattle.std.specs.Prelude.{◌≡◌};
ghost use Rattle.sup_wire.specs.Told.{told_text, told_parts, told_rows};
ghost use Rattle.sup_wire.specs.declared.fault.WireFault.TheVariants.{OutOfMemory};

use std::alloc::{AllocError, AllocFailed};
use sup_causal::PartsFault;
use sup_specs::TextFault;
use sup_tables::RowsFault;
use thiserror::Error;

/// Why a text is no message or image. Where more than one reason holds, the answer is the first of these: `NotJson`;
/// `NotMessage` for a value without a number of a version; `BadVersion`; `NotMessage` for a form; `NotCanonical`. `OutOfMemory` may
/// stand in place of any answer.
#[derive(Clone, Copy, Debug, PartialEq, Eq, Error)]
pub enum WireFault {
    /// The text is no JSON value.
    #[error("no JSON text")]
    NotJson,
    /// The value has no whole number from 0 to 2^64 - 1 as its version, or is none of the forms of its version: a field is
    /// missing, too many, of another form or out of its range, the kind is none that the call reads, or sender and receiver
    /// are one.
    #[error("no message")]
    NotMessage,
    /// The version is such a number, and none that is read.
    #[error("another version")]
    BadVersion,
    /// Every field has its form, but rows or cloud are out of order, a dot of the cloud is less than two past its node's
    /// entry in the vector, or the context lacks a row's dot.
    #[error("rows or cloud are not canonical")]
    NotCanonical,
    /// A growth was refused.
    #[error("out of memory")]
    OutOfMemory,
}

impl From<AllocError> for WireFault {
    ghost from_gives = { λ _ e. e ≡ OutOfMemory };

    fn from(_e: AllocError) -> WireFault {
        WireFault::OutOfMemory
    }
}

impl<T: Drop> From<AllocFailed<T>> for WireFault {
    ghost from_gives = { λ _ e. e ≡ OutOfMemory };

    fn from(_e: AllocFailed<T>) -> WireFault {
        WireFault::OutOfMemory
    }
}

impl From<TextFault> for WireFault {
    ghost from_gives = { λ fault told. told ≡ told_text fault };

    fn from(fault: TextFault) -> WireFault {
        match fault {
            TextFault::Empty | TextFault::TooLong | TextFault::BadByte(_) => WireFault::NotMessage,
            TextFault::OutOfMemory => WireFault::OutOfMemory,
        }
    }
}

impl From<PartsFault> for WireFault {
    ghost from_gives = { λ fault told. told ≡ told_parts fault };

    fn from(fault: PartsFault) -> WireFault {
        match fault {
            PartsFault::NotCanonical => WireFault::NotCanonical,
            PartsFault::OutOfMemory => WireFault::OutOfMemory,
        }
    }
}

impl From<RowsFault> for WireFault {
    ghost from_gives = { λ fault told. told ≡ told_rows fault };

    fn from(fault: RowsFault) -> WireFault {
        match fault {
            RowsFault::NotCanonical | RowsFault::NotCovered => WireFault::NotCanonical,
            RowsFault::OutOfMemory => WireFault::OutOfMemory,
        }
    }
}
