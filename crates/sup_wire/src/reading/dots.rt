//! Arrays of two and of four, and dots.
ghost use Rattle.std.specs.Prelude.{◌≡◌, option_map};
ghost use Rattle.serde_json.specs.View.{view, items_view};
ghost use Rattle.sup_wire.specs.FieldReads.{ReadGivesBy};
ghost use Rattle.sup_wire.specs.RowReads.{two_at, four_lent, four_at, dot_at, each_in};

use crate::fault::WireFault;
use crate::reading::fields::{name_of, within};
use serde_json::Value;
use std::alloc::Global;
use sup_causal::Dot;
use sup_specs::MAX;

// The items of an array of two.
#[tactic(auto, unfolding(crate::specs::RowReads::two_at))]
fn two_of(value: &Value) -> Option<(&Value, &Value)>
    ensures { option_map (λ p. (view p.0.now, view p.1.now)) result ≡ two_at (view value.now) }
{
    let list = value.as_array()?;
    if list.len() != 2 {
        return None;
    }
    Some((&list[0], &list[1]))
}

// The items of an array of four: a row's table, key, dot and value.
#[derive(Clone, Copy)]
pub(crate) struct Four<'a> {
    pub(crate) table: &'a Value,
    pub(crate) key: &'a Value,
    pub(crate) dot: &'a Value,
    pub(crate) value: &'a Value,
}

#[tactic(auto, unfolding(crate::specs::RowReads::four_at))]
pub(crate) fn four_of(value: &Value) -> Option<Four<'_>>
    ensures { option_map four_lent result ≡ four_at (view value.now) }
{
    let list = value.as_array()?;
    if list.len() != 4 {
        return None;
    }
    Some(Four {
        table: &list[0],
        key: &list[1],
        dot: &list[2],
        value: &list[3],
    })
}

// A dot.
#[tactic(auto, unfolding(crate::specs::RowReads::dot_at))]
pub(crate) fn dot_of(value: &Value) -> Option<Dot>
    ensures { result ≡ dot_at (view value.now) }
{
    let (node, counter) = two_of(value)?;
    let node = name_of(node)?;
    let counter = within(counter, 1, MAX)?;
    Some(Dot { counter, node })
}

// Dots, one for each item.
pub(crate) fn each_dot(alloc: Global, values: &[Value]) -> Result<Vec<Dot>, WireFault>
    ensures { ReadGivesBy (λ v. v.items) result (each_in dot_at (items_view values.now)) }
{
    let mut dots = Vec::with_capacity(alloc, values.len())?;
    for value in values {
        let dot = dot_of(value).ok_or(WireFault::NotMessage)?;
        dots.push(dot)?;
    }
    Ok(dots)
}
