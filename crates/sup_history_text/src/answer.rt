//! What a node told: an answer.
ghost use Rattle.std.specs.Prelude.{◌≡◌, ◌≢◌, ◌≤◌, ◌<◌, ◌++◌, All, false, take, drop, length, is_some, HoldsAt};
ghost use Rattle.sup_history_text.specs.Kinds.{kind_of};
ghost use Rattle.sup_history_text.specs.Lines.{lines_in};
ghost use Rattle.sup_history_text.specs.Sessions.{IsAnswer, answer_lines, goes_on};

use crate::kinds::LineKind;
use crate::line::{NumberedLine, lines_from};

/// What a node told: the lines of an answer, each behind `>`.
#[derive(Clone, Copy)]
pub struct Answer<'a> {
    pub lines: &'a [NumberedLine<'a>],
    /// The `>` that ends it. None where the node or its writer ended before that was written: nobody was told the whole
    /// answer.
    pub end: Option<&'a NumberedLine<'a>>,
}

impl<'a> Answer<'a> {
    /// Whether its end is there.
    pub fn is_whole(&self) -> bool
        ensures { result ≡ is_some self.now.end }
    {
        self.end.is_some()
    }
}

// The answer at the front of these lines, and how many lines it is.
pub(crate) fn take_answer<'a>(lines: &'a [NumberedLine<'a>]) -> (Answer<'a>, usize)
    ensures lines { answer_lines result.0 ++ lines_in (drop result.1 lines.entry.now) ≡ lines_in lines.entry.now }
    ensures within { result.1 ≤ length lines.entry.now }
    ensures answer { IsAnswer result.0 }
    ensures over { is_some result.0.end ≡ false → goes_on (drop result.1 lines.entry.now) ≡ false }
{
    let count = told_count(lines);
    let told = &lines[..count];
    if count < lines.len() && lines[count].is(LineKind::End) {
        let answer = Answer {
            lines: told,
            end: Some(&lines[count]),
        };
        return (answer, count + 1);
    }
    let answer = Answer {
        lines: told,
        end: None,
    };
    (answer, count)
}

// How many lines at the front were told, up to the first that wasn't, or that ends an answer.
fn told_count(lines: &[NumberedLine]) -> usize
    ensures within { result ≤ length lines.now }
    ensures told { All (λ line. kind_of line.bytes.now ≡ LineKind.Told) (take result lines.now) }
    ensures next { result < length lines.now
        → HoldsAt (λ line. kind_of line.bytes.now ≢ LineKind.Told) lines.now result }
{
    for (index, line) in lines.iter().enumerate() {
        if !line.is(LineKind::Told) {
            return index;
        }
    }
    lines.len()
}
