//! The words of a line.

ghost use Rattle.std.specs.Prelude.{◌≡◌, IfOk, None, Some, option_map, if◌then◌else◌};
ghost use Rattle.sup_lines.specs.Words.{texts};
ghost use Rattle.sup_lines.specs.Script.{is_plain, words_of};

use std::alloc::{AllocError, Global};
use std::str;

/// The words between single spaces. Two spaces have an empty word between them.
///
/// # Errors
///
/// `AllocError` where memory was refused.
pub fn words_of<'a>(alloc: Global, line: &'a str) -> Result<Vec<&'a str>, AllocError>
    ensures { IfOk result (λ v. texts v.items ≡ words_of line.entry.now) }
{
    line.split(' ').collect(alloc)
}

/// A line's text, if it has no byte but those from ` ` to `~`.
pub fn plain_text<'a>(line: &'a [u8]) -> Option<&'a str>
    ensures { option_map (λ t. t.now) result
        ≡ (if is_plain line.entry.now then Some line.entry.now else None) }
{
    if !is_plain(line) {
        return None;
    }
    match str::from_utf8(line) {
        Ok(text) => Some(text),
        Err(_) => None,
    }
}

fn is_plain(line: &[u8]) -> bool
    ensures { result ≡ is_plain line.now }
{
    line.iter().all(|byte| b' ' <= *byte && *byte <= b'~')
}
