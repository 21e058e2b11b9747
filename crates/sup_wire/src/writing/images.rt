//! Whole images.
ghost use Rattle.std.specs.Prelude.{◌≡◌, ◌<◌, ◌^◌, ◌++◌, IfOk};
ghost use Rattle.std.specs.List.{AllByRecursion};
ghost use Rattle.sup_tables.specs.Lent.{rows_lent};
ghost use Rattle.sup_wire.specs.declared.image.Image.{Image};
ghost use Rattle.sup_wire.specs.Drafts.{IsDraftOfImage, IsWholeImage};
ghost use Rattle.sup_wire.specs.Faults.{IsTextAfter, IsImageInRange};
ghost use Rattle.sup_wire.specs.Forms.{IsName, IsWritten, AreWritten};
ghost use Rattle.sup_wire.specs.Lent.{IsLentOf, ForLent};
ghost use Rattle.sup_wire.specs.RowTexts.{AreRows, texts_of};
ghost use Rattle.sup_wire.specs.ImageTexts.{closed_shown, image_shown};
ghost use Rattle.sup_wire.specs.Writing.{parts_lent};

use crate::image::Image;
use crate::lent_image::LentImage;
use crate::row_item::RowItem;
use crate::writing::fronts::front_after;
use crate::writing::lending::{LentParts, lent_parts, lent_rows};
use std::alloc::AllocError;
use sup_array_text::{ArrayBuilding, ArrayText};
use sup_specs::NodeName;
use sup_tables::LentRow;

// Room for a row, before it is known how long its text is.
const ROW: usize = 128;

// The text of an image by its parts, behind what the buffer has.
pub(crate) fn text_by(
    front: Vec<u8>,
    node: &NodeName,
    boot: u64,
    count: u64,
    parts: &LentParts<'_>,
) -> Result<ArrayText, AllocError>
    ensures boot { boot < 2 ^ 64 }
    ensures count { count < 2 ^ 64 }
    ensures name { IfOk result (λ t. IsName node.now) }
    ensures written { IfOk result (λ t. AreWritten (parts_lent parts.now)) }
    ensures text { IfOk result (λ t. t ≡ image_shown front.items node.now boot count (parts_lent parts.now)) }
{
    let front = front_after(front, node, boot, count, parts)?;
    let rows = parts.rows;
    let begun = ArrayBuilding::new(front, rows.len(), rows.len().saturating_mul(ROW))?;
    let made = with_texts(begun, rows)?;
    let text = closed(made)?;
    Ok(text)
}

// Closed, with what stands behind the rows.
pub(crate) fn closed(made: ArrayBuilding) -> Result<ArrayText, AllocError>
    ensures { IfOk result (λ t. t ≡ closed_shown made.front made.items) }
{
    let text = made.closed(b",\"v\":2}")?;
    Ok(text)
}

// With the texts of these rows.
fn with_texts(made: ArrayBuilding, rows: &[LentRow<'_>]) -> Result<ArrayBuilding, AllocError>
    ensures front { IfOk result (λ all. all.front ≡ made.front) }
    ensures items { IfOk result (λ all. all.items ≡ made.items ++ texts_of (rows_lent rows.now)) }
    ensures written { IfOk result (λ all. AllByRecursion IsWritten (rows_lent rows.now)) }
{
    let mut all = made;
    for row in rows {
        all = all.with_item(&RowItem { row: *row })?;
    }
    Ok(all)
}

// The text of an image that is lent, behind what the buffer has.
pub(crate) fn lent_text_after(
    front: Vec<u8>,
    image: &LentImage<'_>,
) -> Result<ArrayText, AllocError>
    ensures text { IfOk result (λ t. ForLent image.now (λ i. IsTextAfter IsDraftOfImage IsImageInRange front.items t.text i)) }
    ensures rows { IfOk result (λ t. (i : Image) → IsLentOf image.now i → IsWholeImage i → AreRows i.state.rows t.items) }
{
    // For the clauses: the context's counters are in their limits.
    image.context.counted();
    let parts = lent_parts(image.context, &image.rows)?;
    let text = text_by(front, &image.node, image.boot, image.count, &parts)?;
    Ok(text)
}

// Lends an image.
fn lent_image(image: &Image) -> Result<LentImage<'_>, AllocError>
    ensures lent { IfOk result (λ l. IsLentOf l image.now) }
    ensures whole { IfOk result (λ _. IsWholeImage image.now) }
{
    let rows = lent_rows(&image.state)?;
    Ok(LentImage {
        node: image.node,
        boot: image.boot,
        count: image.count,
        context: image.state.context(),
        rows,
    })
}

// The text of an image, behind what the buffer has.
pub(crate) fn image_text_after(front: Vec<u8>, image: &Image) -> Result<ArrayText, AllocError>
    ensures text { IfOk result (λ t. IsTextAfter IsDraftOfImage IsImageInRange front.items t.text image.now) }
    ensures rows { IfOk result (λ t. AreRows image.now.state.rows t.items) }
    ensures whole { IfOk result (λ t. IsWholeImage image.now) }
{
    let lent = lent_image(image)?;
    let text = lent_text_after(front, &lent)?;
    Ok(text)
}
