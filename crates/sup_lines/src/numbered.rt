//! The lines of a script, with their numbers.

ghost use Rattle.std.specs.Prelude.{◌≡◌, IfOk, map};
ghost use Rattle.sup_lines.specs.Words.{texts};
ghost use Rattle.sup_lines.specs.Script.{is_skipped, lines_of, numbered_lines};

use std::alloc::{AllocError, Global};

/// A line that isn't skipped, and its number from 1.
#[derive(Clone, Copy)]
pub struct NumberedLine<'a> {
    /// Skipped lines are counted too.
    pub number: u64,
    /// Without its line feed.
    pub bytes: &'a [u8],
}

/// The lines that are neither empty nor a comment, each behind its number.
///
/// # Errors
///
/// `AllocError` where memory was refused.
pub fn number_lines<'a>(alloc: Global, bytes: &'a [u8]) -> Result<Vec<NumberedLine<'a>>, AllocError>
    ensures { IfOk result (λ v. map (λ l. (l.number, l.bytes.now)) v.items
        ≡ numbered_lines bytes.entry.now) }
{
    let lines = lines_of(alloc, bytes)?;
    let mut kept = Vec::new(alloc);
    for (index, line) in lines.iter().enumerate() {
        if !is_skipped(line) {
            kept.push(NumberedLine {
                number: index as u64 + 1,
                bytes: line,
            })?;
        }
    }
    Ok(kept)
}

fn lines_of<'a>(alloc: Global, bytes: &'a [u8]) -> Result<Vec<&'a [u8]>, AllocError>
    ensures { IfOk result (λ v. texts v.items ≡ lines_of bytes.entry.now) }
{
    bytes.split(|byte| *byte == b'\n').collect(alloc)
}

fn is_skipped(line: &[u8]) -> bool
    ensures { result ≡ is_skipped line.now }
{
    line.is_empty() || line[0] == b'#'
}
