//! The parts that an image's text is put together of.
ghost use Rattle.std.specs.Prelude.{◌≡◌, ◌<◌, ◌^◌, IfOk};
ghost use Rattle.sup_wire.specs.ImageTexts.{IsFront, closed_shown};

use crate::heading::Heading;
use crate::writing::fronts::front_after;
use crate::writing::images::closed;
use crate::writing::lending::lent_parts;
use std::alloc::{AllocError, Global};
use sup_array_text::{ArrayBuilding, ArrayText};

/// What stands before the rows of an image. An `Err` where a growth was refused.
pub fn image_front(alloc: Global, heading: &Heading<'_>) -> Result<Vec<u8>, AllocError>
    ensures boot { IfOk result (λ text. heading.now.boot < 2 ^ 64) }
    ensures count { IfOk result (λ text. heading.now.count < 2 ^ 64) }
    ensures text { IfOk result (λ text. IsFront heading.now text.items) }
{
    let parts = lent_parts(heading.context, &[])?;
    let text = front_after(
        Vec::new(alloc),
        &heading.node,
        heading.boot,
        heading.count,
        &parts,
    )?;
    Ok(text)
}

/// What was put together, closed, with what stands behind an image's rows. An `Err` where a growth was refused.
pub fn closed_image(made: ArrayBuilding) -> Result<ArrayText, AllocError>
    ensures { IfOk result (λ t. t ≡ closed_shown made.front made.items) }
{
    closed(made)
}
