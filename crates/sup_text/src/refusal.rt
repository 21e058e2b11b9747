//! Refusals as texts.

ghost use Rattle.std.specs.Prelude.{◌≡◌, IfOk, Some, string_bytes};
ghost use Rattle.sup_text.specs.Answers.{refusal_name, refusal_text};

use std::alloc::{AllocError, Global};
use std::fmt;
use sup_replica::Refusal;

/// The line of a refusal, as `refused 4 AlreadyPresent`.
///
/// # Errors
///
/// Refused only for memory.
pub fn refusal_text(alloc: Global, refusal: Refusal) -> Result<String, AllocError>
    ensures { IfOk result (λ s. string_bytes s ≡ refusal_text refusal) }
{
    let number = refusal.number();
    let name = RefusalName(refusal);
    format!(in alloc; "refused {number} {name}\n")
}

// A refusal's name.
#[derive(Clone, Copy)]
struct RefusalName(Refusal);

impl fmt::Display for RefusalName {
    ghost output = { λ r. Some (refusal_name r.0) };

    fn fmt<W: fmt::Write>(&self, f: &mut fmt::Formatter<W>) -> fmt::Result {
        match self.0 {
            Refusal::Down => write!(f, "Down"),
            Refusal::AlreadyUp => write!(f, "AlreadyUp"),
            Refusal::UnknownNode => write!(f, "UnknownNode"),
            Refusal::AlreadyPresent => write!(f, "AlreadyPresent"),
            Refusal::NotFound => write!(f, "NotFound"),
            Refusal::AlreadyMember => write!(f, "AlreadyMember"),
            Refusal::NotMember => write!(f, "NotMember"),
            Refusal::NameTaken => write!(f, "NameTaken"),
            Refusal::NoSuchChild => write!(f, "NoSuchChild"),
            Refusal::NameUnknown => write!(f, "NameUnknown"),
            Refusal::DotsSpent => write!(f, "DotsSpent"),
            Refusal::UpToDate => write!(f, "UpToDate"),
            Refusal::NoSuchMessage => write!(f, "NoSuchMessage"),
            Refusal::StaleExit => write!(f, "StaleExit"),
            Refusal::TableFull => write!(f, "TableFull"),
            Refusal::KeepFailed => write!(f, "KeepFailed"),
            Refusal::BadMessage => write!(f, "BadMessage"),
            Refusal::WrongReceiver => write!(f, "WrongReceiver"),
            Refusal::OutOfMemory => write!(f, "OutOfMemory"),
            Refusal::HistoryFull => write!(f, "HistoryFull"),
            Refusal::CountSpent => write!(f, "CountSpent"),
            Refusal::NothingToPush => write!(f, "NothingToPush"),
            Refusal::AlreadyDraining => write!(f, "AlreadyDraining"),
        }
    }
}
