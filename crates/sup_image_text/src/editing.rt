//! A text with other rows.
ghost use Rattle.std.specs.Prelude.{◌≡◌, ◌≤◌, length, map, drop, IfOk};
ghost use Rattle.std.specs.List.{AllByRecursion};
ghost use Rattle.sup_edits.specs.Edits.{edit_of, IsComing};
ghost use Rattle.sup_tables.specs.Lent.{row_lent};
ghost use Rattle.sup_wire.specs.Forms.{IsWritten};
ghost use Rattle.sup_wire.specs.RowTexts.{texts_of};
ghost use Rattle.sup_wire.specs.ImageTexts.{closed_shown};
ghost use Rattle.sup_image_text.specs.Places.{ForRows};
ghost use Rattle.sup_image_text.specs.Next.{edited_rows, IsMadeWith};

use crate::searching::place_from;
use crate::writing::CopiedRow;
use json::Scratch;
use std::alloc::{AllocError, Global};
use sup_array_text::{ArrayBuilding, ArrayText, Room};
use sup_edits::Edit;
use sup_tables::LentRow;
use sup_wire::closed_image;

// The text with other rows behind this front, in this room: those of `texts`, of which some go, and some that come, as the edits say,
// one behind the other.
pub(crate) fn edited(
    alloc: Global,
    texts: &ArrayText,
    edits: &[Edit<LentRow<'_>>],
    front: &[u8],
    room: Room,
) -> Result<ArrayText, AllocError>
    ensures written { IfOk result (λ t. AllByRecursion (IsComing IsWritten) (map (edit_of row_lent) edits.now)) }
    ensures text { IfOk result (λ t. ForRows texts.now.items (λ rows. t ≡ closed_shown front.now (texts_of (edited_rows edits.now rows)))) }
{
    let mut scratch = Scratch::new(alloc);
    let mut next = 0;
    let mut made = ArrayBuilding::in_room(
        room,
        front,
        texts.count().saturating_add(edits.len()),
        texts.text().len(),
    )?;
    for edit in edits {
        let (more, past) = with_edit(alloc, texts, made, next, edit, &mut scratch)?;
        made = more;
        next = past;
    }
    let all = made.with_run(texts, next, texts.count())?;
    let text = closed_image(all)?;
    Ok(text)
}

// What is made so far with what one edit makes of the items from `next` on, and from where on items are left.
fn with_edit(
    alloc: Global,
    texts: &ArrayText,
    made: ArrayBuilding,
    next: usize,
    edit: &Edit<LentRow<'_>>,
    scratch: &mut Scratch,
) -> Result<(ArrayBuilding, usize), AllocError>
    requires { next ≤ length texts.now.items }
    ensures within { IfOk result (λ r. r.1 ≤ length texts.now.items) }
    ensures front { IfOk result (λ r. r.0.front ≡ made.front) }
    ensures written { IfOk result (λ r. IsComing IsWritten (edit_of row_lent edit.now)) }
    ensures items { IfOk result (λ r. IsMadeWith texts.now.items made.items next (edit_of row_lent edit.now) r.0.items r.1) }
{
    match edit {
        Edit::Comes(row) => {
            let at = place_from(texts, next, row, scratch)?;
            let before = made.with_run(texts, next, at)?;
            let more = before.with_item(&CopiedRow { row: *row, alloc })?;
            Ok((more, at))
        }
        Edit::Goes(row) => {
            let at = place_from(texts, next, row, scratch)?;
            let more = made.with_run(texts, next, at)?;
            Ok((more, past(texts, at)))
        }
    }
}

// The place behind an item, if there is one.
fn past(texts: &ArrayText, at: usize) -> usize
    requires { at ≤ length texts.now.items }
    ensures within { result ≤ length texts.now.items }
    ensures past { ForRows texts.now.items (λ rows. drop result rows ≡ drop 1 (drop at rows)) }
{
    if at < texts.count() { at + 1 } else { at }
}
