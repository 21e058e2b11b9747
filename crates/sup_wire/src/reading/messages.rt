//! Whole messages.
ghost use Rattle.std.specs.Prelude.{◌≡◌};
ghost use Rattle.serde_json.specs.View.{view};
ghost use Rattle.sup_wire.specs.Drafts.{push, delta, IsDraftOf, IsWholeMessage};
ghost use Rattle.sup_wire.specs.Faults.{version_at};
ghost use Rattle.sup_wire.specs.FieldReads.{has_just, ReadGivesBy};
ghost use Rattle.sup_wire.specs.DraftReads.{ack_fields, push_fields, delta_fields, ack_at, push_at, delta_at, message_at, parts_read, SealsDraft, DecodesTo};

use crate::fault::WireFault;
use crate::message::Message;
use crate::reading::fields::{ends_of, has_just, kind_of, version_of, within_in};
use crate::reading::parts::{Parts, parts_of, tables_of};
use crate::version::Version;
use serde_json::Value;
use std::alloc::Global;
use sup_specs::{MAX, NodeName};

#[tactic(auto, unfolding(crate::specs::DraftReads::ack_fields))]
fn has_ack_fields(value: &Value) -> bool
    ensures { result ≡ has_just ack_fields (view value.now) }
{
    has_just(value, &["from", "kind", "n", "to", "v"])
}

#[tactic(auto, unfolding(crate::specs::DraftReads::push_fields))]
fn has_push_fields(value: &Value) -> bool
    ensures { result ≡ has_just push_fields (view value.now) }
{
    has_just(value, &["ctx", "from", "kind", "rows", "to", "v"])
}

#[tactic(auto, unfolding(crate::specs::DraftReads::delta_fields))]
fn has_delta_fields(value: &Value) -> bool
    ensures { result ≡ has_just delta_fields (view value.now) }
{
    has_just(value, &["ctx", "from", "kind", "n", "rows", "to", "v"])
}

// An acknowledgement.
#[tactic(auto, unfolding(crate::specs::DraftReads::ack_at))]
fn ack_of(value: &Value) -> Result<Message, WireFault>
    ensures { SealsDraft IsDraftOf IsWholeMessage result (ack_at (view value.now)) }
{
    if !has_ack_fields(value) {
        return Err(WireFault::NotMessage);
    }
    let (from, to) = ends_of(value).ok_or(WireFault::NotMessage)?;
    let n = within_in(value, "n", 1, MAX).ok_or(WireFault::NotMessage)?;
    Ok(Message::Ack { from, to, n })
}

// A push, before its tables are known to be canonical.
#[tactic(auto, unfolding(crate::specs::DraftReads::push_at))]
fn push_draft_of(
    alloc: Global,
    version: Version,
    value: &Value,
) -> Result<(NodeName, NodeName, Parts), WireFault>
    ensures { ReadGivesBy (λ d. push d.0 d.1 (parts_read d.2)) result (push_at version (view value.now)) }
{
    if !has_push_fields(value) {
        return Err(WireFault::NotMessage);
    }
    let (from, to) = ends_of(value).ok_or(WireFault::NotMessage)?;
    let parts = parts_of(alloc, version, value)?;
    Ok((from, to, parts))
}

fn push_of(alloc: Global, version: Version, value: &Value) -> Result<Message, WireFault>
    ensures { SealsDraft IsDraftOf IsWholeMessage result (push_at version (view value.now)) }
{
    let (from, to, parts) = push_draft_of(alloc, version, value)?;
    let delta = tables_of(alloc, parts)?;
    Ok(Message::Push { from, to, delta })
}

// A delta, before its tables are known to be canonical.
#[tactic(auto, unfolding(crate::specs::DraftReads::delta_at))]
fn delta_draft_of(
    alloc: Global,
    version: Version,
    value: &Value,
) -> Result<(NodeName, NodeName, u64, Parts), WireFault>
    ensures { ReadGivesBy (λ d. delta d.0 d.1 d.2 (parts_read d.3)) result (delta_at version (view value.now)) }
{
    if !has_delta_fields(value) {
        return Err(WireFault::NotMessage);
    }
    let (from, to) = ends_of(value).ok_or(WireFault::NotMessage)?;
    let n = within_in(value, "n", 1, MAX).ok_or(WireFault::NotMessage)?;
    let parts = parts_of(alloc, version, value)?;
    Ok((from, to, n, parts))
}

fn delta_of(alloc: Global, version: Version, value: &Value) -> Result<Message, WireFault>
    ensures { SealsDraft IsDraftOf IsWholeMessage result (delta_at version (view value.now)) }
{
    let (from, to, n, parts) = delta_draft_of(alloc, version, value)?;
    let delta = tables_of(alloc, parts)?;
    Ok(Message::Delta { from, to, n, delta })
}

// A message of a version, by its kind.
#[tactic(auto, unfolding(crate::specs::DraftReads::message_at, crate::specs::DraftReads::message_from))]
fn of_kind(alloc: Global, version: Version, value: &Value) -> Result<Message, WireFault>
    ensures { SealsDraft IsDraftOf IsWholeMessage result (message_at version (view value.now)) }
{
    match kind_of(value).ok_or(WireFault::NotMessage)? {
        "ack" => ack_of(value),
        "push" => push_of(alloc, version, value),
        "delta" => delta_of(alloc, version, value),
        _ => Err(WireFault::NotMessage),
    }
}

// A message.
#[tactic(auto, using(crate::proofs::Sealed::sealed))]
pub(crate) fn message_of(alloc: Global, value: &Value) -> Result<Message, WireFault>
    ensures { DecodesTo IsDraftOf IsWholeMessage result (version_at (view value.now)) (λ v. message_at v (view value.now)) }
{
    match version_of(value) {
        None => Err(WireFault::NotMessage),
        Some(number) => match Version::of(number) {
            None => Err(WireFault::BadVersion),
            Some(version) => of_kind(alloc, version, value),
        },
    }
}
