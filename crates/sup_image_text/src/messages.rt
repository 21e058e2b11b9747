//! The text of a message with all rows, put together from the texts of an image's rows.
ghost use Rattle.std.specs.Prelude.{◌≡◌, ◌≢◌, ◌-◌, length, take, IfOk};
ghost use Rattle.sup_tables.specs.States.{State};
ghost use Rattle.sup_wire.specs.declared.message.Message.TheVariants.{Delta};
ghost use Rattle.sup_wire.specs.Drafts.{IsDraftOf};
ghost use Rattle.sup_wire.specs.Faults.{TextSays, IsTextOf, IsInRange};
ghost use Rattle.sup_wire.specs.Forms.{IsCount};
ghost use Rattle.sup_image_text.specs.Messages.{IsBare, IsStateOfTexts, ForState, delta_back};

use json::Writer;
use std::alloc::{AllocError, Global};
use sup_array_text::{ArrayBuilding, ArrayText};
use sup_causal::{CausalContext, Lattice};
use sup_specs::NodeName;
use sup_tables::Tables;
use sup_wire::{Message, encode};

/// The text of the delta with all that a node knows: the dots of the context, and the rows of these texts, which are copied. It is the
/// same text as [`encode`](sup_wire::encode) gives of that message.
///
/// # Errors
///
/// Refused only for memory.
pub fn delta_text(
    alloc: Global,
    texts: &ArrayText,
    from: &NodeName,
    to: &NodeName,
    n: u64,
    context: &CausalContext,
) -> Result<Vec<u8>, AllocError>
    requires differ { from.now ≢ to.now }
    requires number { IsCount n }
    requires fits { (s : State) × IsStateOfTexts texts.now.items context.now s }
    ensures text { IfOk result (λ t. ForState texts.now.items context.now (λ s. IsTextOf IsDraftOf IsInRange t.items (Delta from.now to.now n s))) }
    ensures says { IfOk result (λ t. ForState texts.now.items context.now (λ s. TextSays IsDraftOf t.items (Delta from.now to.now n s))) }
{
    let bare = bare_text(alloc, from, to, n, context)?;
    let back = back_of(alloc, to)?;
    let front = before_rows(bare, back.len());
    let begun = ArrayBuilding::new(front, texts.count(), texts.text().len())?;
    let made = begun.with_run(texts, 0, texts.count())?;
    let text = made.closed(&back)?;
    Ok(text.into_text())
}

// The text of a delta that knows the context's dots and has no rows.
fn bare_text(
    alloc: Global,
    from: &NodeName,
    to: &NodeName,
    n: u64,
    context: &CausalContext,
) -> Result<Vec<u8>, AllocError>
    requires differ { from.now ≢ to.now }
    requires number { IsCount n }
    ensures { IfOk result (λ text. IsBare context.now from.now to.now n text.items) }
{
    let nothing = CausalContext::empty(alloc);
    let context = context.joined(alloc, &nothing)?;
    let delta = match Tables::from_rows(alloc, context, Vec::new(alloc)) {
        Ok(delta) => delta,
        // Where there are no rows, only memory can be refused.
        Err(_) => return Err(AllocError),
    };
    let message = Message::Delta {
        from: *from,
        to: *to,
        n,
        delta,
    };
    let text = encode(alloc, &message)?;
    Ok(text)
}

// What stands behind the rows of a delta.
fn back_of(alloc: Global, to: &NodeName) -> Result<Vec<u8>, AllocError>
    ensures { IfOk result (λ back. back.items ≡ delta_back to.now) }
{
    let mut comma = Vec::new(alloc);
    comma.push(b',')?;
    let mut out = Writer::new(comma);
    out.key("to")?;
    out.string(to.as_str())?;
    out.key("v")?;
    out.u64(2)?;
    out.end_object()?;
    Ok(out.into_inner())
}

// What stands before the rows of a text that has none and so many bytes behind them.
fn before_rows(text: Vec<u8>, behind: usize) -> Vec<u8>
    ensures { result.items ≡ take (length text.items - behind - 2) text.items }
{
    let mut front = text;
    let before = front.len().saturating_sub(behind).saturating_sub(2);
    front.truncate(before);
    front
}
