//! A text of rows that are all written anew.
ghost use Rattle.std.specs.Prelude.{◌≡◌, ◌++◌, IfOk};
ghost use Rattle.std.specs.List.{AllByRecursion};
ghost use Rattle.sup_tables.specs.Lent.{rows_lent};
ghost use Rattle.sup_wire.specs.Forms.{IsWritten};
ghost use Rattle.sup_wire.specs.ImageTexts.{closed_shown};
ghost use Rattle.sup_wire.specs.RowTexts.{texts_of};

use std::alloc::{AllocError, Global};
use sup_array_text::{ArrayBuilding, ArrayText, Item, Room};
use sup_tables::LentRow;
use sup_wire::{RowItem, closed_image};

// Room for a row, before it is known how long its text is.
const ROW: usize = 128;

// A row that is written by itself, and then copied: a writer fills much of the room behind what it is given, at each row.
#[derive(Clone, Copy)]
pub(crate) struct CopiedRow<'a> {
    pub(crate) row: LentRow<'a>,
    pub(crate) alloc: Global,
}

impl Item for CopiedRow<'_> {
    ghost use Rattle.sup_tables.specs.Lent.{row_lent};
    ghost use Rattle.sup_wire.specs.Forms.{IsWritten};
    ghost use Rattle.sup_wire.specs.RowTexts.{row_text};

    ghost item_text = { λ item. row_text (row_lent item.row) };

    ghost is_sound = { λ item. IsWritten (row_lent item.row) };

    fn write_after(&self, front: Vec<u8>) -> Result<Vec<u8>, AllocError> {
        let room = Vec::with_capacity(self.alloc, ROW)?;
        let text = RowItem { row: self.row }.write_after(room)?;
        let mut all = front;
        all.extend_from_slice(&text)?;
        Ok(all)
    }
}

// The text with these rows behind this front, in this room.
pub(crate) fn written(
    alloc: Global,
    rows: &[LentRow<'_>],
    front: &[u8],
    room: Room,
) -> Result<ArrayText, AllocError>
    ensures written { IfOk result (λ t. AllByRecursion IsWritten (rows_lent rows.now)) }
    ensures text { IfOk result (λ t. t ≡ closed_shown front.now (texts_of (rows_lent rows.now))) }
{
    let bytes = rows.len().saturating_mul(ROW);
    let begun = ArrayBuilding::in_room(room, front, rows.len(), bytes)?;
    let made = with_rows(alloc, begun, rows)?;
    let text = closed_image(made)?;
    Ok(text)
}

// With the texts of these rows.
fn with_rows(
    alloc: Global,
    made: ArrayBuilding,
    rows: &[LentRow<'_>],
) -> Result<ArrayBuilding, AllocError>
    ensures front { IfOk result (λ all. all.front ≡ made.front) }
    ensures items { IfOk result (λ all. all.items ≡ made.items ++ texts_of (rows_lent rows.now)) }
    ensures written { IfOk result (λ all. AllByRecursion IsWritten (rows_lent rows.now)) }
{
    let mut all = made;
    for row in rows {
        all = all.with_item(&CopiedRow { row: *row, alloc })?;
    }
    Ok(all)
}
