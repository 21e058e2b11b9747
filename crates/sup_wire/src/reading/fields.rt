//! The fields of a JSON object.
ghost use Rattle.std.specs.Prelude.{◌≡◌, codes, map};
ghost use Rattle.std.specs.Option.{option_copied};
ghost use Rattle.serde_json.specs.View.{view, members_view};
ghost use Rattle.sup_wire.specs.Faults.{version_at};
ghost use Rattle.sup_wire.specs.FieldReads.{are_keys, has_just, name_at, within_at, name_in, within_in, ends_at, kind_at};

use serde_json::{Map, Value};
use sup_specs::NodeName;

// Whether the keys of an object are these.
fn are_keys(object: &Map<String, Value>, names: &[&str]) -> bool
    ensures { result ≡ are_keys (map (λ name. name.now) names.now) (members_view object.now.entries) }
{
    let mut next = 0;
    for (key, _) in object {
        match names.get(next) {
            Some(name) if *name == key.as_str() => next += 1,
            _ => return false,
        }
    }
    next == names.len()
}

// Whether a value is an object with just these fields.
#[tactic(auto, unfolding(crate::specs::FieldReads::has_just))]
pub(crate) fn has_just(value: &Value, names: &[&str]) -> bool
    ensures { result ≡ has_just (map (λ name. name.now) names.now) (view value.now) }
{
    match value.as_object() {
        Some(object) => are_keys(object, names),
        None => false,
    }
}

// A node's name.
#[tactic(auto, unfolding(crate::specs::FieldReads::name_at))]
pub(crate) fn name_of(value: &Value) -> Option<NodeName>
    ensures { result ≡ name_at (view value.now) }
{
    let text = value.as_str()?;
    NodeName::parse(text).ok()
}

// A number from `least` to `most`.
#[tactic(auto, unfolding(crate::specs::FieldReads::within_at))]
pub(crate) fn within(value: &Value, least: u64, most: u64) -> Option<u64>
    ensures { result ≡ within_at least most (view value.now) }
{
    let n = value.as_u64()?;
    if least <= n && n <= most {
        Some(n)
    } else {
        None
    }
}

// The name in a field.
#[tactic(auto, unfolding(crate::specs::FieldReads::name_in))]
pub(crate) fn name_in(value: &Value, field: &str) -> Option<NodeName>
    ensures { result ≡ name_in field.now (view value.now) }
{
    name_of(value.get(field)?)
}

// The number in a field.
#[tactic(auto, unfolding(crate::specs::FieldReads::within_in))]
pub(crate) fn within_in(value: &Value, field: &str, least: u64, most: u64) -> Option<u64>
    ensures { result ≡ within_in field.now least most (view value.now) }
{
    within(value.get(field)?, least, most)
}

// Sender and receiver.
#[tactic(auto, unfolding(crate::specs::FieldReads::ends_at))]
pub(crate) fn ends_of(value: &Value) -> Option<(NodeName, NodeName)>
    ensures { result ≡ ends_at (view value.now) }
{
    let from = name_in(value, "from")?;
    let to = name_in(value, "to")?;
    if from == to { None } else { Some((from, to)) }
}

// The version that a value says.
pub(crate) fn version_of(value: &Value) -> Option<u64>
    ensures { result ≡ version_at (view value.now) }
{
    value.get("v")?.as_u64()
}

// The kind that a value says.
pub(crate) fn kind_of(value: &Value) -> Option<&str>
    ensures { option_copied result ≡ kind_at (view value.now) }
{
    value.get("kind")?.as_str()
}
