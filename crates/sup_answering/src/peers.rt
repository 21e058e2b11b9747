//! Whose acknowledgements were heard.

ghost use Rattle.std.specs.Prelude.{◌≡◌, Some, IfOk, IsPermutation, IsSorted};
ghost use Rattle.sup_specs.specs.Values.{text_cmp};
ghost use Rattle.sup_node.specs.Texts.{mail_of};
ghost use Rattle.sup_answering.specs.Heard.{AcknowledgesBy, IsSender, is_acked_at, sender_in};

use std::alloc::{AllocError, Global};
use sup_replica::{Act, Done, Event, Refusal, Reply};
use sup_specs::NodeName;
use sup_wire::{Message, WireFault, decode};

// Whether an acknowledgement was taken.
pub(crate) fn is_acked(end: &Result<Done, Refusal>) -> bool
    ensures { result ≡ is_acked_at end.now }
{
    match end {
        Ok(done) => match done.reply {
            Reply::Acked => true,
            _ => false,
        },
        Err(_) => false,
    }
}

// Who acknowledges by an act.
pub(crate) fn acknowledger(alloc: Global, act: &Act) -> Result<Option<NodeName>, AllocError>
    ensures { IfOk result (λ peer. AcknowledgesBy act.now peer) }
{
    match act {
        Act::Event(Event::Deliver(bytes)) => sender_of(alloc, bytes.as_slice()),
        _ => Ok(None),
    }
}

// Who acknowledges by these bytes.
fn sender_of(alloc: Global, bytes: &[u8]) -> Result<Option<NodeName>, AllocError>
    ensures { IfOk result (λ peer. IsSender bytes.now peer) }
{
    match decode(alloc, bytes) {
        Ok(message) => Ok(sender_in(&message)),
        Err(WireFault::OutOfMemory) => Err(AllocError),
        Err(_) => Ok(None),
    }
}

// Who acknowledges by a message.
fn sender_in(message: &Message) -> Option<NodeName>
    ensures { result ≡ sender_in (Some (mail_of message.now)) }
{
    match message {
        Message::Ack { from, .. } => Some(*from),
        Message::Push { .. } => None,
        Message::Delta { .. } => None,
    }
}

// The names in their order.
pub(crate) fn in_order(alloc: Global, names: &[NodeName]) -> Result<Vec<NodeName>, AllocError>
    ensures sorted { IfOk result (λ ordered. IsSorted text_cmp ordered.items) }
    ensures all { IfOk result (λ ordered. IsPermutation names.now ordered.items) }
{
    let mut ordered = Vec::from_slice(alloc, names)?;
    ordered.sort()?;
    Ok(ordered)
}
