//! Rows as items.
ghost use Rattle.sup_tables.specs.Lent.{row_lent};
ghost use Rattle.sup_wire.specs.Forms.{IsWritten};
ghost use Rattle.sup_wire.specs.RowTexts.{row_text};

use crate::writing::rows::write_row;
use json::Writer;
use std::alloc::AllocError;
use sup_array_text::Item;
use sup_tables::LentRow;

/// A row as an item of an array.
#[derive(Clone, Copy)]
pub struct RowItem<'a> {
    pub row: LentRow<'a>,
}

impl Item for RowItem<'_> {
    ghost item_text = { λ item. row_text (row_lent item.row) };

    ghost is_sound = { λ item. IsWritten (row_lent item.row) };

    fn write_after(&self, front: Vec<u8>) -> Result<Vec<u8>, AllocError> {
        let mut out = Writer::new(front);
        write_row(&mut out, &self.row)?;
        Ok(out.into_inner())
    }
}
