//! What a history has of a node from one begin to the next.
ghost use Rattle.std.specs.Prelude.{◌≡◌, ◌<◌, ◌≤◌, ◌++◌, IfOk, IfSome, IsSome, drop, length, slice_get, None};
ghost use Rattle.sup_history_text.specs.Histories.{OnlyBeginFollows, last_kind};
ghost use Rattle.sup_history_text.specs.Kinds.{kind_of};
ghost use Rattle.sup_history_text.specs.Lines.{lines_in};
ghost use Rattle.sup_history_text.specs.Sessions.{IsSession, session_lines};

use crate::answer::{Answer, take_answer};
use crate::exchange::{Exchange, take_exchanges};
use crate::kinds::LineKind;
use crate::line::{NumberedLine, lines_from};
use std::alloc::{AllocError, Global};

/// What a history has of a node from one begin to the next. An answer that has no end is the last thing of its session.
#[derive(Drop)]
pub struct Session<'a> {
    /// The line `begin NAME WEIGH INTENSITY PERIOD BUFFER COUNT`.
    pub begin: &'a NumberedLine<'a>,
    /// The answer that came unasked.
    pub unasked: Answer<'a>,
    /// Each line that the node heard, with its answer.
    pub exchanges: Vec<Exchange<'a>>,
}

// The session at the front of these lines, of which the first is a begin, and how many lines it is.
pub(crate) fn take_session<'a>(
    alloc: Global,
    lines: &'a [NumberedLine<'a>],
) -> Result<(Session<'a>, usize), AllocError>
    requires some { 0 < length lines.now }
    requires begun { IfSome (slice_get lines.now 0) (λ line. kind_of line.bytes.now ≡ LineKind.Begin) }
    ensures lines { IfOk result (λ r.
        session_lines r.0 ++ lines_in (drop r.1 lines.entry.now) ≡ lines_in lines.entry.now) }
    ensures some { IfOk result (λ r. 0 < r.1) }
    ensures within { IfOk result (λ r. r.1 ≤ length lines.entry.now) }
    ensures session { IfOk result (λ r. IsSession r.0) }
    ensures over { IfOk result (λ r.
        OnlyBeginFollows (last_kind None (session_lines r.0)) (lines_in (drop r.1 lines.entry.now))) }
{
    let begin = &lines[0];
    let others = lines_from(lines, 1);
    let (unasked, told) = take_answer(others);
    if !unasked.is_whole() {
        let session = Session {
            begin,
            unasked,
            exchanges: Vec::new(alloc),
        };
        return Ok((session, 1 + told));
    }
    let (exchanges, count) = take_exchanges(alloc, lines_from(others, told))?;
    let session = Session {
        begin,
        unasked,
        exchanges,
    };
    Ok((session, 1 + told + count))
}
