//! A line that a node heard, and its answer.
ghost use Rattle.std.specs.Prelude.{◌≡◌, ◌≤◌, ◌++◌, ◌∷◌, [], All, IfOk, OnOk, drop, length, Some};
ghost use Rattle.sup_history_text.specs.Histories.{OnlyBeginFollows, last_kind};
ghost use Rattle.sup_history_text.specs.Lines.{lines_in};
ghost use Rattle.sup_history_text.specs.Sessions.{AllButLastAreWhole, IsExchange, exchange_lines, exchanges_lines};

use crate::answer::{Answer, take_answer};
use crate::kinds::LineKind;
use crate::line::{NumberedLine, lines_from};
use std::alloc::{AllocError, Global};

/// A line that a node heard, and what it told then.
#[derive(Clone, Copy)]
pub struct Exchange<'a> {
    /// The line, behind `<`.
    pub heard: &'a NumberedLine<'a>,
    pub answer: Answer<'a>,
}

// The exchanges at the front of these lines, up to the first one whose answer has no end, and how many lines they are.
pub(crate) fn take_exchanges<'a>(
    alloc: Global,
    lines: &'a [NumberedLine<'a>],
) -> Result<(Vec<Exchange<'a>>, usize), AllocError>
    ensures lines { IfOk result (λ r.
        exchanges_lines r.0.items ++ lines_in (drop r.1 lines.entry.now) ≡ lines_in lines.entry.now) }
    ensures within { IfOk result (λ r. r.1 ≤ length lines.entry.now) }
    ensures exchanges { IfOk result (λ r. All IsExchange r.0.items) }
    ensures whole { IfOk result (λ r. AllButLastAreWhole r.0.items) }
    ensures over { IfOk result (λ r.
        OnlyBeginFollows (last_kind (Some LineKind.End) (exchanges_lines r.0.items))
        (lines_in (drop r.1 lines.entry.now))) }
{
    let mut exchanges = Vec::new(alloc);
    let mut at = 0;
    while at < lines.len() && lines[at].is(LineKind::Heard) {
        let (answer, count) = take_answer(lines_from(lines, at + 1));
        let heard = &lines[at];
        push_exchange(&mut exchanges, Exchange { heard, answer })?;
        at += 1 + count;
        if !answer.is_whole() {
            return Ok((exchanges, at));
        }
    }
    Ok((exchanges, at))
}

fn push_exchange<'a>(
    exchanges: &mut Vec<Exchange<'a>>,
    exchange: Exchange<'a>,
) -> Result<(), AllocError>
    ensures { OnOk result (exchanges.new.items ≡ exchanges.old.items ++ exchange.entry ∷ []) }
{
    exchanges.push(exchange)?;
    Ok(())
}
