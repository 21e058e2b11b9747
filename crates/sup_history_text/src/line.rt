//! The lines of a history that were written whole.
ghost use Rattle.std.specs.Prelude.{◌≡◌, ◌+◌, ◌∷◌, ◌++◌, ◌≤◌, ◌↔◌, IsTrue, IfOk, OnOk, drop, length};
ghost use Rattle.std.specs.List.{enumerate_from};
ghost use Rattle.sup_history_text.specs.Kinds.{kind_of};
ghost use Rattle.sup_history_text.specs.Lines.{is_whole_line, lines_in, lines_of, numbered, texts, whole_lines};

use crate::kinds::{LineKind, is_begin, kind_of};
use std::alloc::{AllocError, Global};

/// A line of a history, and its number from 1.
#[derive(Clone, Copy)]
pub struct NumberedLine<'a> {
    pub number: u64,
    /// Without its line feed.
    pub bytes: &'a [u8],
}

impl<'a> NumberedLine<'a> {
    /// Whether it is a line of this kind.
    pub fn is(&self, kind: LineKind) -> bool
        ensures { IsTrue result ↔ (kind_of self.now.bytes.now ≡ kind) }
    {
        kind_of(self.bytes) == kind
    }
}

/// The lines that were written whole, each with its number. A begin is written behind a line feed of its own, so the line
/// before it is empty, or was being written when the node ended; what stands behind the last line feed was being written,
/// too. No other line of a history is empty.
///
/// # Errors
///
/// Where memory was refused.
pub fn whole_lines<'a>(alloc: Global, bytes: &'a [u8]) -> Result<Vec<NumberedLine<'a>>, AllocError>
    ensures { IfOk result (λ lines. lines_in lines.items ≡ whole_lines (numbered bytes.entry.now)) }
{
    let lines = lines_of(alloc, bytes)?;
    let mut whole = Vec::new(alloc);
    for (index, line) in lines.iter().enumerate() {
        add_whole(&mut whole, index as u64 + 1, line, &lines[index + 1..])?;
    }
    Ok(whole)
}

// Adds the line of this number, if it was written whole, by the lines behind it.
fn add_whole<'a>(
    whole: &mut Vec<NumberedLine<'a>>,
    number: u64,
    bytes: &'a [u8],
    behind: &[&'a [u8]],
) -> Result<(), AllocError>
    ensures { OnOk result (lines_in whole.new.items ++ whole_lines (enumerate_from (number + 1) (texts behind.now))
        ≡ lines_in whole.old.items
        ++ whole_lines ((number, bytes.entry.now) ∷ enumerate_from (number + 1) (texts behind.now))) }
{
    if let [next, ..] = behind {
        if is_whole_line(bytes, next) {
            whole.push(NumberedLine { number, bytes })?;
        }
    }
    Ok(())
}

fn lines_of<'a>(alloc: Global, bytes: &'a [u8]) -> Result<Vec<&'a [u8]>, AllocError>
    ensures { IfOk result (λ lines. texts lines.items ≡ lines_of bytes.entry.now) }
{
    bytes.split(|byte| *byte == b'\n').collect(alloc)
}

// Whether a line that stands before this one was written whole.
fn is_whole_line(line: &[u8], next: &[u8]) -> bool
    ensures { result ≡ is_whole_line line.now next.now }
{
    !line.is_empty() && !is_begin(next)
}

// The lines from this place on.
pub(crate) fn lines_from<'a>(lines: &'a [NumberedLine<'a>], at: usize) -> &'a [NumberedLine<'a>]
    requires { at ≤ length lines.now }
    ensures { result.now ≡ drop at lines.entry.now }
{
    &lines[at..]
}
