//! Texts of visible bytes.
ghost use Rattle.serde_json.specs.View.{view};
ghost use Rattle.sup_wire.specs.FieldReads.{ReadGives, text_at, text_in};

use crate::fault::WireFault;
use serde_json::Value;
use std::alloc::Global;
use sup_specs::{ChildId, Kind, Name, Text};

#[tactic(auto, unfolding(crate::specs::FieldReads::text_at))]
pub(crate) fn id_of(alloc: Global, value: &Value) -> Result<ChildId, WireFault>
    ensures { ReadGives result (text_at 1 128 (view value.now)) }
{
    let text = value.as_str().ok_or(WireFault::NotMessage)?;
    let id = ChildId::parse(alloc, text)?;
    Ok(id)
}

#[tactic(auto, unfolding(crate::specs::FieldReads::text_at))]
pub(crate) fn registered_name_of(alloc: Global, value: &Value) -> Result<Name, WireFault>
    ensures { ReadGives result (text_at 1 128 (view value.now)) }
{
    let text = value.as_str().ok_or(WireFault::NotMessage)?;
    let name = Name::parse(alloc, text)?;
    Ok(name)
}

#[tactic(auto, unfolding(crate::specs::FieldReads::text_at))]
fn kind_of(alloc: Global, value: &Value) -> Result<Kind, WireFault>
    ensures { ReadGives result (text_at 1 128 (view value.now)) }
{
    let text = value.as_str().ok_or(WireFault::NotMessage)?;
    let kind = Kind::parse(alloc, text)?;
    Ok(kind)
}

#[tactic(auto, unfolding(crate::specs::FieldReads::text_at))]
fn text_of(alloc: Global, value: &Value) -> Result<Text, WireFault>
    ensures { ReadGives result (text_at 0 1024 (view value.now)) }
{
    let text = value.as_str().ok_or(WireFault::NotMessage)?;
    let text = Text::parse(alloc, text)?;
    Ok(text)
}

// The kind in a field.
#[tactic(auto, unfolding(crate::specs::FieldReads::text_in))]
pub(crate) fn kind_in(alloc: Global, value: &Value, field: &str) -> Result<Kind, WireFault>
    ensures { ReadGives result (text_in field.now 1 128 (view value.now)) }
{
    kind_of(alloc, value.get(field).ok_or(WireFault::NotMessage)?)
}

// The text in a field.
#[tactic(auto, unfolding(crate::specs::FieldReads::text_in))]
pub(crate) fn text_in(alloc: Global, value: &Value, field: &str) -> Result<Text, WireFault>
    ensures { ReadGives result (text_in field.now 0 1024 (view value.now)) }
{
    text_of(alloc, value.get(field).ok_or(WireFault::NotMessage)?)
}
