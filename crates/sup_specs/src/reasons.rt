//! The texts of exit reasons.
ghost use Rattle.std.specs.Prelude.{◌≡◌, ◌↔◌, ◌++◌, None, Some, IfSome, IfOk, IsErrOf, codes, option_map};
ghost use Rattle.sup_specs.specs.Reasons.{reason_of, reason_text, word_of};

use crate::child::ExitReason;
use crate::shutdown_label::Label;
use crate::texts::TextFault;
use std::alloc::Global;
use std::fmt;
use thiserror::Error;

/// Why a text is not read as an exit reason.
#[derive(Clone, Copy, Debug, PartialEq, Eq, Error)]
pub enum ReasonFault {
    /// It has none of the forms.
    #[error("the text is no exit reason")]
    NotAReason,
    /// It is an exit reason, and memory for it was refused.
    #[error("out of memory")]
    OutOfMemory,
}

impl From<TextFault> for ReasonFault {
    ghost use Rattle.std.specs.Prelude.{◌≡◌};
    ghost use Rattle.sup_specs.specs.Reasons.{fault_of};

    ghost from_gives = { λ fault given. given ≡ fault_of fault };

    fn from(fault: TextFault) -> ReasonFault {
        match fault {
            TextFault::OutOfMemory => ReasonFault::OutOfMemory,
            _ => ReasonFault::NotAReason,
        }
    }
}

impl ExitReason {
    /// Reads a reason: `normal`, `shutdown`, `shutdown:` with a label right behind it, `failed` or `crash`.
    ///
    /// # Errors
    ///
    /// - `ReasonFault::NotAReason` exactly where the text is none of these.
    /// - `ReasonFault::OutOfMemory` where memory for the label was refused.
    #[tactic(auto, unfolding(crate::specs::Reasons::reason_of))]
    pub fn parse(alloc: Global, text: &str) -> Result<ExitReason, ReasonFault>
        ensures read { IfOk result (λ reason. reason_of text.now ≡ Some reason) }
        ensures text { IfOk result (λ reason. reason_text reason ≡ text.now) }
        ensures refused { IsErrOf result ReasonFault.NotAReason ↔ (reason_of text.now ≡ None) }
    {
        match text {
            "normal" => Ok(ExitReason::Normal),
            "shutdown" => Ok(ExitReason::Shutdown),
            "failed" => Ok(ExitReason::Failed),
            "crash" => Ok(ExitReason::Crash),
            _ => {
                let word = word_of(text).ok_or(ReasonFault::NotAReason)?;
                Ok(ExitReason::ShutdownWith(Label::parse(alloc, word)?))
            }
        }
    }
}

// What stands behind `shutdown:`.
#[tactic(auto, unfolding(crate::specs::Reasons::word_of))]
fn word_of(text: &str) -> Option<&str>
    ensures word { option_map (λ word. word.now) result ≡ word_of text.entry.now }
    ensures text { IfSome result (λ word. codes "shutdown:" ++ word.now ≡ text.entry.now) }
{
    text.strip_prefix("shutdown:")
}

/// Writes the reason, as [`ExitReason::parse`] reads it.
impl fmt::Display for ExitReason {
    ghost use Rattle.std.specs.Prelude.{Some};
    ghost use Rattle.sup_specs.specs.Reasons.{reason_text};

    ghost output = { λ reason. Some (reason_text reason) };

    fn fmt<W: fmt::Write>(&self, f: &mut fmt::Formatter<W>) -> fmt::Result {
        match self {
            ExitReason::Normal => write!(f, "normal"),
            ExitReason::Shutdown => write!(f, "shutdown"),
            ExitReason::ShutdownWith(label) => {
                let word = label.as_str();
                write!(f, "shutdown:{word}")
            }
            ExitReason::Failed => write!(f, "failed"),
            ExitReason::Crash => write!(f, "crash"),
        }
    }
}
