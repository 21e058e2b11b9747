//! The image that a file has.
ghost use Rattle.std.specs.Prelude.{◌≡◌, Ok, IfOk, IfErr};
ghost use Rattle.std.specs.List.{list_any};
ghost use Rattle.sup_journal.specs.Records.{is_record};
ghost use Rattle.sup_journal.specs.Files.{ended_lines, judged, replayed, reading_of, IsFaultOf};

use crate::lines::cut_line;
use crate::records::{after, is_record, is_sound};
use std::alloc::{AllocError, Global};
use thiserror::Error;

/// Why no image was read.
#[derive(Clone, Copy, Debug, PartialEq, Eq, Error)]
pub enum ReadFault {
    /// The line of this number, from 1, is neither a record nor empty, and a record stands behind it.
    #[error("line {0} is no record, and a record stands behind it")]
    Damaged(u64),
    #[error("out of memory")]
    OutOfMemory,
}

impl From<AllocError> for ReadFault {
    ghost use Rattle.std.specs.Prelude.{◌≡◌};
    ghost use Rattle.sup_journal.specs.declared.reading.ReadFault.TheVariants.{OutOfMemory};

    ghost from_gives = { λ _ fault. fault ≡ OutOfMemory };

    fn from(_error: AllocError) -> ReadFault {
        ReadFault::OutOfMemory
    }
}

/// The image that a file of these bytes has.
///
/// # Errors
///
/// As [`ReadFault`] tells: where the file is damaged, by its first line that is no record, or memory was refused.
pub fn read_image(alloc: Global, file: &[u8]) -> Result<Vec<u8>, ReadFault>
    ensures image { IfOk result (λ image. reading_of file.now ≡ Ok image.items) }
    ensures fault { IfErr result (IsFaultOf (reading_of file.now)) }
{
    match cut_line(file) {
        None => Ok(file.to_vec(alloc)?),
        Some((first, others)) => replayed(alloc, first, others),
    }
}

// What the lines of a text that line feeds end make of an image, from line 2 of its file on.
fn replayed(alloc: Global, first: &[u8], others: &[u8]) -> Result<Vec<u8>, ReadFault>
    ensures image { IfOk result (λ image. replayed 2 first.now (ended_lines others.now) ≡ Ok image.items) }
    ensures fault { IfErr result (IsFaultOf (replayed 2 first.now (ended_lines others.now))) }
{
    let mut image = first.to_vec(alloc)?;
    let mut number = 2;
    let mut rest = others;
    while let Some((line, next)) = cut_line(rest) {
        if !is_sound(line) {
            return judged(image, number, next);
        }
        image = after(alloc, line, image)?;
        number += 1;
        rest = next;
    }
    Ok(image)
}

// What a file says whose line of this number is no record: this image, unless a record stands behind it.
fn judged(image: Vec<u8>, number: u64, behind: &[u8]) -> Result<Vec<u8>, ReadFault>
    ensures image { IfOk result (λ said. judged number image.items (ended_lines behind.now) ≡ Ok said.items) }
    ensures fault { IfErr result (IsFaultOf (judged number image.items (ended_lines behind.now))) }
{
    if has_record(behind) {
        return Err(ReadFault::Damaged(number));
    }
    Ok(image)
}

fn has_record(text: &[u8]) -> bool
    ensures { result ≡ list_any is_record (ended_lines text.now) }
{
    let mut rest = text;
    while let Some((line, next)) = cut_line(rest) {
        if is_record(line) {
            return true;
        }
        rest = next;
    }
    false
}
