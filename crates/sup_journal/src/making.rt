//! Records are made.
ghost use Rattle.std.specs.Prelude.{◌≡◌, ◌++◌, ◌∷◌, ◌↔◌, [], true, IfOk, IfSome, IsSome, IsTrue};
ghost use Rattle.sup_journal.specs.Records.{is_record, line_of};
ghost use Rattle.sup_journal.specs.Files.{IsOneLine};
ghost use Rattle.sup_journal.specs.Changes.{AreShort, IsSmallChange};
ghost use Rattle.sup_journal.specs.Making.{IsRecordFor};

use crate::changes::edits_between;
use crate::fnv::checksum;
use crate::lines::is_one_line;
use crate::numbers::put_digits;
use crate::one_edit::one_edit;
use crate::records::{SUM, applied, is_record};
use std::alloc::{AllocError, Global};

/// A record, between two line feeds, and the image that it makes.
#[derive(Drop)]
pub struct Record {
    pub bytes: Vec<u8>,
    pub image: Vec<u8>,
}

/// A record that makes the new image of the old one, at most half as long as that. None only where no one edit does so: the image is to be
/// written whole then. Each record is read back before it is told.
pub fn make_record(alloc: Global, old: &[u8], new: &[u8]) -> Result<Option<Record>, AllocError>
    ensures record { IfOk result (λ found. IfSome found (λ made. IsRecordFor made old.now new.now)) }
    ensures found { IfOk result (λ found. IsSmallChange old.now new.now → IsSome found) }
{
    if let Some(edits) = edits_between(alloc, old, new)? {
        let found = record_of(alloc, old, new, &edits)?;
        if found.is_some() {
            return Ok(found);
        }
    }
    let edits = one_edit(alloc, old, new)?;
    record_of(alloc, old, new, &edits)
}

// The record of these edits, where it is at most half as long as the new image, and makes that of the old one.
fn record_of(
    alloc: Global,
    old: &[u8],
    new: &[u8],
    edits: &[u8],
) -> Result<Option<Record>, AllocError>
    ensures record { IfOk result (λ found. IfSome found (λ made. IsRecordFor made old.now new.now)) }
    ensures found { IfOk result (λ found. AreShort edits.now old.now new.now → IsSome found) }
{
    let line = line_of(alloc, edits)?;
    if !is_good(&line) {
        return Ok(None);
    }
    let bytes = framed(alloc, &line)?;
    if bytes.len() > new.len() / 2 {
        return Ok(None);
    }
    let image = applied(alloc, &line, old)?;
    if !are_same(&image, new) {
        return Ok(None);
    }
    Ok(Some(Record { bytes, image }))
}

// The edits behind their checksum.
fn line_of(alloc: Global, edits: &[u8]) -> Result<Vec<u8>, AllocError>
    ensures { IfOk result (λ line. line.items ≡ line_of edits.now) }
{
    let mut line = Vec::with_capacity(alloc, edits.len().saturating_add(SUM))?;
    put_digits(&mut line, checksum(edits), SUM as u64)?;
    line.extend_from_slice(edits)?;
    Ok(line)
}

// Whether it is one line, and that a record.
fn is_good(line: &[u8]) -> bool
    ensures { IsTrue result ↔ (IsOneLine line.now × (is_record line.now ≡ true)) }
{
    is_one_line(line) && is_record(line)
}

fn are_same(left: &[u8], right: &[u8]) -> bool
    ensures { IsTrue result ↔ (left.now ≡ right.now) }
{
    left == right
}

// A line between two line feeds.
fn framed(alloc: Global, line: &[u8]) -> Result<Vec<u8>, AllocError>
    ensures { IfOk result (λ bytes. bytes.items ≡ 10 ∷ (line.now ++ 10 ∷ [])) }
{
    let mut bytes = Vec::with_capacity(alloc, line.len().saturating_add(2))?;
    bytes.push(b'\n')?;
    bytes.extend_from_slice(line)?;
    bytes.push(b'\n')?;
    Ok(bytes)
}
