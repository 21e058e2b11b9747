//! Edits, as they are written.
ghost use Rattle.std.specs.Prelude.{◌≡◌, ◌≤◌, ◌++◌, length, IfOk, OnOk};
ghost use Rattle.sup_journal.specs.Edits.{retained_by, deleted_by, inserted_by, edits_in, edited, written};

use crate::numbers::{number_of, put_digits};
use crate::slices::{behind, front};
use std::alloc::{AllocError, Global};

// Three numbers, of eight digits each.
pub(crate) const HEAD: usize = 24;

const DIGITS: u64 = 8;

// A text after the edits that are written.
pub(crate) fn edited(alloc: Global, edits: &[u8], text: &[u8]) -> Result<Vec<u8>, AllocError>
    ensures { IfOk result (λ made. made.items ≡ edited (edits_in edits.now) text.now) }
{
    let mut made = Vec::with_capacity(alloc, text.len().saturating_add(edits.len()))?;
    let mut turns = edits.len();
    let mut rest = edits;
    let mut from = text;
    while turns > 0 && rest.len() >= HEAD {
        let (retained, deleted, inserted) = counts_of(rest);
        let texts = behind(rest, HEAD as u64);
        made.extend_from_slice(front(from, retained))?;
        made.extend_from_slice(front(texts, inserted))?;
        rest = behind(texts, inserted);
        from = behind(behind(from, retained), deleted);
        turns -= 1;
    }
    made.extend_from_slice(from)?;
    Ok(made)
}

// How many bytes stay, go and come by the edit that is written first.
fn counts_of(edits: &[u8]) -> (u64, u64, u64)
    requires { 24 ≤ length edits.now }
    ensures retained { result.0 ≡ retained_by edits.now }
    ensures deleted { result.1 ≡ deleted_by edits.now }
    ensures inserted { result.2 ≡ inserted_by edits.now }
{
    (
        number_of(&edits[..8]),
        number_of(&edits[8..16]),
        number_of(&edits[16..24]),
    )
}

// Writes an edit more. Of a number of more than eight digits it writes the last ones, and so another edit.
pub(crate) fn put_edit(
    edits: &mut Vec<u8>,
    retained: usize,
    deleted: usize,
    inserted: &[u8],
) -> Result<(), AllocError>
    ensures { OnOk result (edits.new.items ≡ edits.old.items
        ++ written (record { retained = retained; deleted = deleted; inserted = inserted.now })) }
{
    put_digits(edits, retained as u64, DIGITS)?;
    put_digits(edits, deleted as u64, DIGITS)?;
    put_digits(edits, inserted.len() as u64, DIGITS)?;
    edits.extend_from_slice(inserted)?;
    Ok(())
}
