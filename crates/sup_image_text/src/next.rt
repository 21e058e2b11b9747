//! The text of the next image.
ghost use Rattle.std.specs.Prelude.{◌↔◌, ◌<◌, ◌/◌, List, IsTrue, IfOk};
ghost use Rattle.sup_tables.specs.declared.row.Row.{Row};
ghost use Rattle.sup_tables.specs.Lent.{rows_lent};
ghost use Rattle.sup_wire.specs.declared.image.Image.{Image};
ghost use Rattle.sup_wire.specs.RowTexts.{AreRows};
ghost use Rattle.sup_wire.specs.ImageTexts.{IsTextFor, IsTextWith};
ghost use Rattle.sup_image_text.specs.Next.{IsNext, IsEditedText};

use crate::editing::edited;
use crate::next_image::{NextImage, RowChange};
use crate::writing::written;
use std::alloc::{AllocError, Global};
use sup_array_text::{ArrayText, Room};
use sup_edits::Edit;
use sup_tables::LentRow;
use sup_wire::{Heading, image_front};

/// The text of the image that comes of another, of which this is the text. It changes nothing, and asks for all the memory
/// that is wanted: what it gives can take the old text's place by a move. It is put together in this room.
///
/// # Errors
///
/// Refused only for memory.
pub fn text_after(
    alloc: Global,
    texts: &ArrayText,
    next: &NextImage<'_>,
    room: Room,
) -> Result<ArrayText, AllocError>
    ensures { IfOk result (λ t. (old : List Row) (new : Image) → AreRows old texts.now.items → IsNext old new next.now → IsTextFor new t) }
{
    match &next.rows {
        RowChange::Edits(edits) => {
            let text = edited_text(alloc, texts, edits, &next.heading, room)?;
            Ok(text)
        }
        RowChange::All(rows) => {
            let text = all_text(alloc, rows, &next.heading, room)?;
            Ok(text)
        }
    }
}

// Of the last image's rows, of which some go and to which some come.
fn edited_text(
    alloc: Global,
    texts: &ArrayText,
    edits: &[Edit<LentRow<'_>>],
    heading: &Heading<'_>,
    room: Room,
) -> Result<ArrayText, AllocError>
    ensures { IfOk result (λ t. IsEditedText texts.now.items edits.now heading.now t) }
{
    let front = image_front(alloc, heading)?;
    let text = edited(alloc, texts, edits, &front, room)?;
    Ok(text)
}

// Of these rows, all of them written anew.
fn all_text(
    alloc: Global,
    rows: &[LentRow<'_>],
    heading: &Heading<'_>,
    room: Room,
) -> Result<ArrayText, AllocError>
    ensures { IfOk result (λ t. IsTextWith heading.now (rows_lent rows.now) t) }
{
    let front = image_front(alloc, heading)?;
    let text = written(alloc, rows, &front, room)?;
    Ok(text)
}

// An edit, with its search, takes as long as some 8 rows that are written.
const SEARCH: usize = 8;

/// Whether there are fewer edits than an eighth of the rows, rounded down: one by one these are taken to be done sooner than
/// all rows are written anew.
pub fn is_few(edits: usize, rows: usize) -> bool
    ensures { IsTrue result ↔ (edits < rows / 8) }
{
    edits < rows / SEARCH
}
