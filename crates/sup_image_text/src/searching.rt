//! The place of a row among kept texts.
ghost use Rattle.std.specs.Prelude.{◌≡◌, ◌≤◌, length, drop, slice_range, IfOk};
ghost use Rattle.sup_image_text.specs.Places.{ForRows, rows_before, rows_after};

use crate::places::is_before;
use json::Scratch;
use std::alloc::AllocError;
use sup_array_text::ArrayText;
use sup_tables::LentRow;

// How many items stand before the row, at least so many as `from`.
pub(crate) fn place_from(
    texts: &ArrayText,
    from: usize,
    row: &LentRow<'_>,
    scratch: &mut Scratch,
) -> Result<usize, AllocError>
    requires { from ≤ length texts.now.items }
    ensures low { IfOk result (λ at. from ≤ at) }
    ensures high { IfOk result (λ at. at ≤ length texts.now.items) }
    ensures before { IfOk result (λ at. ForRows texts.now.items (λ rows. slice_range rows from at ≡ rows_before row.now (drop from rows))) }
    ensures after { IfOk result (λ at. ForRows texts.now.items (λ rows. drop at rows ≡ rows_after row.now (drop from rows))) }
{
    let mut low = from;
    let mut high = texts.count();
    while low < high {
        let middle = low + (high - low) / 2;
        if is_before(texts.item(middle), row, scratch)? {
            low = middle + 1;
        } else {
            high = middle;
        }
    }
    Ok(low)
}
