//! Replies as texts.

ghost use Rattle.std.specs.Prelude.{◌≡◌, IfOk, string_bytes};
ghost use Rattle.sup_text.specs.Answers.{reply_text};

use crate::dot::{DotText, spaced_dots};
use std::alloc::{AllocError, Global};
use sup_replica::Reply;

// The line of a reply.
pub(crate) fn reply_text(alloc: Global, reply: &Reply) -> Result<String, AllocError>
    ensures { IfOk result (λ s. string_bytes s ≡ reply_text reply.now) }
{
    match reply {
        Reply::Added(dot) => {
            let dot = DotText(*dot);
            format!(in alloc; "ok {dot}\n")
        }
        Reply::Replaced(dot, removed) => {
            let dot = DotText(*dot);
            let dots = spaced_dots(alloc, removed.as_slice())?;
            let dots = dots.as_str();
            format!(in alloc; "ok {dot} removed{dots}\n")
        }
        Reply::Removed(removed) => {
            let dots = spaced_dots(alloc, removed.as_slice())?;
            let dots = dots.as_str();
            format!(in alloc; "ok removed{dots}\n")
        }
        Reply::Restarted => format!(in alloc; "ok restarted\n"),
        Reply::Finished(dot) => {
            let dot = DotText(*dot);
            format!(in alloc; "ok finished {dot}\n")
        }
        Reply::GaveUp(removed) => {
            let dots = spaced_dots(alloc, removed.as_slice())?;
            let dots = dots.as_str();
            format!(in alloc; "ok gave up removed{dots}\n")
        }
        Reply::Sent => format!(in alloc; "ok sent\n"),
        Reply::Absorbed => format!(in alloc; "ok absorbed\n"),
        Reply::Known => format!(in alloc; "ok known\n"),
        Reply::Acked => format!(in alloc; "ok acked\n"),
        Reply::Stopped => format!(in alloc; "ok stopped\n"),
        Reply::Boot(boot) => format!(in alloc; "ok boot {boot}\n"),
    }
}
