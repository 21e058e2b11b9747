//! What stands before an image's rows.
ghost use Rattle.std.specs.Prelude.{◌≡◌, ◌<◌, ◌^◌, ◌++◌, ◌∷◌, [], IfOk, codes, decimal};
ghost use Rattle.std.specs.List.{AllByRecursion};
ghost use Rattle.json.specs.Print.{quoted};
ghost use Rattle.serde_json.specs.Written.{compact_text};
ghost use Rattle.sup_wire.specs.Forms.{IsName, context_value};
ghost use Rattle.sup_wire.specs.ImageTexts.{field_text, image_front};
ghost use Rattle.sup_wire.specs.Writing.{parts_lent};

use crate::writing::context::write_context;
use crate::writing::fields::{number_field, text_field};
use crate::writing::lending::LentParts;
use json::Writer;
use std::alloc::AllocError;
use sup_specs::NodeName;

// What stands before the rows, behind what the buffer has.
pub(crate) fn front_after(
    front: Vec<u8>,
    node: &NodeName,
    boot: u64,
    count: u64,
    parts: &LentParts<'_>,
) -> Result<Vec<u8>, AllocError>
    ensures boot { boot < 2 ^ 64 }
    ensures count { count < 2 ^ 64 }
    ensures name { IfOk result (λ all. IsName node.now) }
    ensures vector { IfOk result (λ all. AllByRecursion (λ e. IsName e.0) parts.now.vector.items) }
    ensures cloud { IfOk result (λ all. AllByRecursion (λ d. IsName d.node) parts.now.cloud.items) }
    ensures text { IfOk result (λ all. all.items ≡ front.items ++ image_front node.now boot count (parts_lent parts.now)) }
{
    let text = with_byte(front, b'{')?;
    let text = with_number(text, "boot", boot)?;
    let text = with_number(text, "count", count)?;
    let text = with_context(text, parts)?;
    let text = with_text(text, "kind", "image")?;
    let text = with_text(text, "node", node.as_str())?;
    let text = with_key(text, "rows")?;
    Ok(text)
}

fn with_number(front: Vec<u8>, name: &str, n: u64) -> Result<Vec<u8>, AllocError>
    ensures { IfOk result (λ text. text.items ≡ front.items ++ field_text name.now (decimal n)) }
{
    let mut out = Writer::new(front);
    number_field(&mut out, name, n)?;
    let text = with_byte(out.into_inner(), b',')?;
    Ok(text)
}

fn with_text(front: Vec<u8>, name: &str, text: &str) -> Result<Vec<u8>, AllocError>
    ensures { IfOk result (λ all. all.items ≡ front.items ++ field_text name.now (quoted text.now)) }
{
    let mut out = Writer::new(front);
    text_field(&mut out, name, text)?;
    let all = with_byte(out.into_inner(), b',')?;
    Ok(all)
}

fn with_context(front: Vec<u8>, parts: &LentParts<'_>) -> Result<Vec<u8>, AllocError>
    ensures vector { IfOk result (λ all. AllByRecursion (λ e. IsName e.0) parts.now.vector.items) }
    ensures cloud { IfOk result (λ all. AllByRecursion (λ d. IsName d.node) parts.now.cloud.items) }
    ensures text { IfOk result (λ all. all.items ≡ front.items ++ field_text (codes "ctx") (compact_text (context_value (parts_lent parts.now)))) }
{
    let mut out = Writer::new(front);
    out.key("ctx")?;
    write_context(&mut out, parts)?;
    let text = with_byte(out.into_inner(), b',')?;
    Ok(text)
}

fn with_key(front: Vec<u8>, name: &str) -> Result<Vec<u8>, AllocError>
    ensures { IfOk result (λ text. text.items ≡ front.items ++ (quoted name.now ++ 58 ∷ [])) }
{
    let mut out = Writer::new(front);
    out.key(name)?;
    Ok(out.into_inner())
}

fn with_byte(front: Vec<u8>, byte: u8) -> Result<Vec<u8>, AllocError>
    ensures { IfOk result (λ text. text.items ≡ front.items ++ byte ∷ []) }
{
    let mut text = front;
    text.push(byte)?;
    Ok(text)
}
