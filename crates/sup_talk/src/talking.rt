//! A talk: each line of a host is answered before the next is heard.

ghost use Rattle.std.specs.Prelude.{◌≡◌, ℕ, Bool, List, Option, IfOk, OnErr, option_map};
ghost use Rattle.sup_talk.specs.Talking.{Replies, Rounds, TalksFor};

use crate::host::Host;
use crate::line::{LINE_LIMIT, LineFault, Taken};
use std::alloc::{AllocError, Global};
use sup_jobs::DeviceFault;
use thiserror::Error;

/// Why a talk ended before its time.
#[derive(Clone, Copy, Debug, PartialEq, Eq, Error)]
pub enum TalkFault {
    /// The host can't be heard or told any more.
    #[error("device")]
    Device,
    /// Memory was refused.
    #[error("out of memory")]
    OutOfMemory,
}

/// How a talk ended.
#[derive(Clone, Copy, Debug, PartialEq, Eq)]
pub enum TalkEnd {
    /// The host says no more.
    Ended,
    /// The answerer is over: it has given its last answer.
    Over,
    /// `u64::MAX` lines were answered.
    Spent,
}

/// What answers lines, and shows the keeper by which what it has done is kept.
pub trait Answerer<K> {
    // It has given its last answer.
    ghost over: { Self → Bool };

    // It was in the first state, heard this line, or that there was one too long, said this text, and is in the second.
    ghost answers: { Self → Option (List ℕ) → List ℕ → Self → Type 0 };

    // It was in the first state, heard this line, or that there was one too long, was refused memory at that, and is in the second.
    ghost lacks: { Self → Option (List ℕ) → Self → Type 0 };

    // In this state it may show this keeper.
    ghost shows: { Self → K → Type 0 };

    /// Answers a line, or, where there is none, a line that was too long.
    ///
    /// # Errors
    ///
    /// Where memory was refused. What the line asks for may be done then, as `lacks` says.
    fn answer(&mut self, line: Option<&[u8]>) -> Result<Vec<u8>, AllocError>
        ensures answers { IfOk result (λ text. answers self.old (option_map (λ l. l.now) line.entry) text.items self.new) }
        ensures lacks { OnErr result (lacks self.old (option_map (λ l. l.now) line.entry) self.new) };

    /// Whether it has given its last answer.
    fn is_over(&self) -> bool
        ensures { result ≡ over self.now };

    /// Its keeper.
    fn keeper(&self) -> &K
        ensures { shows self.now result.now };
}

/// Answers each line of the host before the next is heard, until the host says no more, the answerer is over, or `u64::MAX` lines were
/// answered. With each answer, and while a line is awaited, the host is shown the keeper as the last answer left it. A line that no line
/// feed ended is none.
///
/// # Errors
///
/// - `TalkFault::Device` where the host can't be heard or told any more. A front of a line may be gone then, or the last line is answered
///   and the host was told a front of that answer, and not all.
/// - `TalkFault::OutOfMemory`. A front of a line may be gone then, or what the last line asks for may be done, as the answerer's `lacks`
///   says, and its answer isn't told.
pub fn talk<K, T: Answerer<K>, H: Host<K>>(
    alloc: Global,
    answerer: &mut T,
    host: &mut H,
) -> Result<TalkEnd, TalkFault>
    ensures { TalksFor T.answers T.shows T.lacks T.over LINE_LIMIT answerer.old answerer.new (H.seen host.old) (H.seen host.new) result }
{
    let mut lines: u64 = 0;
    while lines < u64::MAX {
        if answerer.is_over() {
            return Ok(TalkEnd::Over);
        }
        if !talk_once(alloc, answerer, host)? {
            return Ok(TalkEnd::Ended);
        }
        lines += 1;
    }
    Ok(TalkEnd::Spent)
}

// Hears a line and answers it; false where the host says no more.
fn talk_once<K, T: Answerer<K>, H: Host<K>>(
    alloc: Global,
    answerer: &mut T,
    host: &mut H,
) -> Result<bool, TalkFault>
    ensures { Rounds T.answers T.shows T.lacks LINE_LIMIT answerer.old answerer.new (H.seen host.old) (H.seen host.new) result }
{
    let Some(text) = reply(alloc, answerer, host)? else {
        return Ok(false);
    };
    match host.tell(text.as_slice(), answerer.keeper()) {
        Ok(()) => Ok(true),
        Err(DeviceFault) => Err(TalkFault::Device),
    }
}

// The answer to the next line, or none where the host says no more.
fn reply<K, T: Answerer<K>, H: Host<K>>(
    alloc: Global,
    answerer: &mut T,
    host: &mut H,
) -> Result<Option<Vec<u8>>, TalkFault>
    ensures { Replies T.answers T.shows T.lacks LINE_LIMIT answerer.old answerer.new (H.seen host.old) (H.seen host.new) result }
{
    match host.hear(alloc, answerer.keeper()) {
        Ok(Taken::Line(line)) => match answerer.answer(Some(line.as_slice())) {
            Ok(text) => Ok(Some(text)),
            Err(_) => Err(TalkFault::OutOfMemory),
        },
        Ok(Taken::TooLong) => match answerer.answer(None) {
            Ok(text) => Ok(Some(text)),
            Err(_) => Err(TalkFault::OutOfMemory),
        },
        Ok(Taken::End) => Ok(None),
        Err(LineFault::Device) => Err(TalkFault::Device),
        Err(LineFault::OutOfMemory) => Err(TalkFault::OutOfMemory),
    }
}
