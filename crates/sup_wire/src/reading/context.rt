//! Contexts: a version vector and a dot cloud.
ghost use Rattle.std.specs.Prelude.{◌≡◌};
ghost use Rattle.serde_json.specs.View.{view, members_view};
ghost use Rattle.sup_wire.specs.FieldReads.{has_just, ReadGivesBy};
ghost use Rattle.sup_wire.specs.DraftReads.{note_from, notes_in, vector_at, dots_at, cloud_in, vector_in, context_fields, context_at, context_in};

use crate::fault::WireFault;
use crate::reading::dots::each_dot;
use crate::reading::fields::{has_just, within};
use serde_json::{Map, Value};
use std::alloc::Global;
use sup_causal::Dot;
use sup_specs::{MAX, NodeName};

// An entry of a vector.
#[tactic(auto, unfolding(crate::specs::DraftReads::note_from))]
fn note_of(name: &str, value: &Value) -> Option<(NodeName, u64)>
    ensures { result ≡ note_from name.now (view value.now) }
{
    let node = NodeName::parse(name).ok()?;
    let counter = within(value, 1, MAX)?;
    Some((node, counter))
}

// The entries of a vector, one for each field of the object.
fn each_note(alloc: Global, object: &Map<String, Value>) -> Result<Vec<(NodeName, u64)>, WireFault>
    ensures { ReadGivesBy (λ v. v.items) result (notes_in (members_view object.now.entries)) }
{
    let mut vector = Vec::new(alloc);
    for (name, value) in object {
        let note = note_of(name.as_str(), value).ok_or(WireFault::NotMessage)?;
        vector.push(note)?;
    }
    Ok(vector)
}

#[tactic(auto, unfolding(crate::specs::DraftReads::vector_at))]
fn vector_of(alloc: Global, value: &Value) -> Result<Vec<(NodeName, u64)>, WireFault>
    ensures { ReadGivesBy (λ v. v.items) result (vector_at (view value.now)) }
{
    each_note(alloc, value.as_object().ok_or(WireFault::NotMessage)?)
}

#[tactic(auto, unfolding(crate::specs::DraftReads::dots_at))]
fn dots_of(alloc: Global, value: &Value) -> Result<Vec<Dot>, WireFault>
    ensures { ReadGivesBy (λ v. v.items) result (dots_at (view value.now)) }
{
    each_dot(alloc, value.as_array().ok_or(WireFault::NotMessage)?)
}

#[tactic(auto, unfolding(crate::specs::DraftReads::cloud_in))]
fn cloud_in(alloc: Global, value: &Value) -> Result<Vec<Dot>, WireFault>
    ensures { ReadGivesBy (λ v. v.items) result (cloud_in (view value.now)) }
{
    dots_of(alloc, value.get("cloud").ok_or(WireFault::NotMessage)?)
}

#[tactic(auto, unfolding(crate::specs::DraftReads::vector_in))]
fn vector_in(alloc: Global, value: &Value) -> Result<Vec<(NodeName, u64)>, WireFault>
    ensures { ReadGivesBy (λ v. v.items) result (vector_in (view value.now)) }
{
    vector_of(alloc, value.get("vector").ok_or(WireFault::NotMessage)?)
}

#[tactic(auto, unfolding(crate::specs::DraftReads::context_fields))]
fn has_context_fields(value: &Value) -> bool
    ensures { result ≡ has_just context_fields (view value.now) }
{
    has_just(value, &["cloud", "vector"])
}

// A context, before it is known to be canonical.
#[derive(Drop)]
pub(crate) struct Context {
    pub(crate) vector: Vec<(NodeName, u64)>,
    pub(crate) cloud: Vec<Dot>,
}

#[tactic(auto, unfolding(crate::specs::DraftReads::context_at))]
fn context_of(alloc: Global, value: &Value) -> Result<Context, WireFault>
    ensures { ReadGivesBy (λ c. (c.vector.items, c.cloud.items)) result (context_at (view value.now)) }
{
    if !has_context_fields(value) {
        return Err(WireFault::NotMessage);
    }
    let cloud = cloud_in(alloc, value)?;
    let vector = vector_in(alloc, value)?;
    Ok(Context { vector, cloud })
}

#[tactic(auto, unfolding(crate::specs::DraftReads::context_in))]
pub(crate) fn context_in(alloc: Global, value: &Value) -> Result<Context, WireFault>
    ensures { ReadGivesBy (λ c. (c.vector.items, c.cloud.items)) result (context_in (view value.now)) }
{
    context_of(alloc, value.get("ctx").ok_or(WireFault::NotMessage)?)
}
