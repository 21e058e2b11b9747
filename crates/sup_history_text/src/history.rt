//! A whole history.
ghost use Rattle.std.specs.Prelude.{◌≡◌, ◌↔◌, ℕ, ◌++◌, ◌∷◌, All, [], IfOk, OnOk, IsErrOf};
ghost use Rattle.sup_history_text.specs.Histories.{AreInOrder, IsFirstOutOfOrder};
ghost use Rattle.sup_history_text.specs.Lines.{lines_in};
ghost use Rattle.sup_history_text.specs.Sessions.{IsSession, sessions_lines};

use crate::fault::HistoryFault;
use crate::kinds::LineKind;
use crate::line::{NumberedLine, lines_from};
use crate::session::{Session, take_session};
use std::alloc::{AllocError, Global};

/// The sessions of a history, of the lines that were written whole: these are theirs, and no others.
///
/// # Errors
///
/// - `HistoryFault::Empty` where there are no lines.
/// - `HistoryFault::BadLine` with the number of the first line that stands in no history behind the lines before it.
/// - `HistoryFault::OutOfMemory`.
pub fn read_history<'a>(
    alloc: Global,
    lines: &'a [NumberedLine<'a>],
) -> Result<Vec<Session<'a>>, HistoryFault>
    ensures lines { IfOk result (λ sessions. sessions_lines sessions.items ≡ lines_in lines.entry.now) }
    ensures sessions { IfOk result (λ sessions. All IsSession sessions.items) }
    ensures in_order { OnOk result (AreInOrder (lines_in lines.entry.now)) }
    ensures empty { IsErrOf result HistoryFault.Empty ↔ (lines.entry.now ≡ []) }
    ensures bad_line { (n : ℕ) → IsErrOf result (HistoryFault.BadLine n)
        → IsFirstOutOfOrder (lines_in lines.entry.now) n }
{
    if lines.is_empty() {
        return Err(HistoryFault::Empty);
    }
    let mut sessions = Vec::new(alloc);
    let mut at = 0;
    while at < lines.len() {
        if !lines[at].is(LineKind::Begin) {
            return Err(HistoryFault::BadLine(lines[at].number));
        }
        let (session, count) = take_session(alloc, lines_from(lines, at))?;
        push_session(&mut sessions, session)?;
        at += count;
    }
    Ok(sessions)
}

fn push_session<'a>(sessions: &mut Vec<Session<'a>>, session: Session<'a>) -> Result<(), AllocError>
    ensures { OnOk result (sessions.new.items ≡ sessions.old.items ++ session.entry ∷ []) }
{
    sessions.push(session)?;
    Ok(())
}
