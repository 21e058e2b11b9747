//! Rows.
ghost use Rattle.serde_json.specs.View.{view, items_view};
ghost use Rattle.sup_wire.specs.FieldReads.{ReadGives, ReadGivesBy};
ghost use Rattle.sup_wire.specs.RowReads.{member_at, child_at, registered_at, entry_at, row_at, rows_at, each_in};

use crate::fault::WireFault;
use crate::reading::child::{info_of, spec_of};
use crate::reading::dots::{dot_of, four_of};
use crate::reading::fields::name_of;
use crate::reading::texts::{id_of, registered_name_of};
use crate::version::Version;
use serde_json::Value;
use std::alloc::Global;
use sup_tables::{Entry, Row};

// An entry of the members.
#[tactic(auto, unfolding(crate::specs::RowReads::member_at))]
fn member_of(
    alloc: Global,
    version: Version,
    key: &Value,
    value: &Value,
) -> Result<Entry, WireFault>
    ensures { ReadGives result (member_at version (view key.now) (view value.now)) }
{
    let node = name_of(key).ok_or(WireFault::NotMessage)?;
    let info = info_of(alloc, version, value)?;
    Ok(Entry::Member(node, info))
}

// An entry of the children.
#[tactic(auto, unfolding(crate::specs::RowReads::child_at))]
fn child_of(alloc: Global, key: &Value, value: &Value) -> Result<Entry, WireFault>
    ensures { ReadGives result (child_at (view key.now) (view value.now)) }
{
    let id = id_of(alloc, key)?;
    let spec = spec_of(alloc, value)?;
    Ok(Entry::Child(id, spec))
}

// An entry of the names.
#[tactic(auto, unfolding(crate::specs::RowReads::registered_at))]
fn registered_of(alloc: Global, key: &Value, value: &Value) -> Result<Entry, WireFault>
    ensures { ReadGives result (registered_at (view key.now) (view value.now)) }
{
    let name = registered_name_of(alloc, key)?;
    let id = id_of(alloc, value)?;
    Ok(Entry::Name(name, id))
}

// An entry of a table.
#[tactic(auto, unfolding(crate::specs::RowReads::entry_at))]
fn entry_of(
    alloc: Global,
    version: Version,
    table: &str,
    key: &Value,
    value: &Value,
) -> Result<Entry, WireFault>
    ensures { ReadGives result (entry_at version table.now (view key.now) (view value.now)) }
{
    match table {
        "member" => member_of(alloc, version, key, value),
        "child" => child_of(alloc, key, value),
        "name" => registered_of(alloc, key, value),
        _ => Err(WireFault::NotMessage),
    }
}

// A row.
#[tactic(auto, unfolding(crate::specs::RowReads::row_at))]
fn row_of(alloc: Global, version: Version, value: &Value) -> Result<Row, WireFault>
    ensures { ReadGives result (row_at version (view value.now)) }
{
    let parts = four_of(value).ok_or(WireFault::NotMessage)?;
    let table = parts.table.as_str().ok_or(WireFault::NotMessage)?;
    let dot = dot_of(parts.dot).ok_or(WireFault::NotMessage)?;
    let entry = entry_of(alloc, version, table, parts.key, parts.value)?;
    Ok(Row { dot, entry })
}

// Rows, one for each item.
fn each_row(alloc: Global, version: Version, values: &[Value]) -> Result<Vec<Row>, WireFault>
    ensures { ReadGivesBy (λ v. v.items) result (each_in (row_at version) (items_view values.now)) }
{
    let mut rows = Vec::with_capacity(alloc, values.len())?;
    for value in values {
        let row = row_of(alloc, version, value)?;
        rows.push(row)?;
    }
    Ok(rows)
}

#[tactic(auto, unfolding(crate::specs::RowReads::rows_at))]
pub(crate) fn rows_of(alloc: Global, version: Version, value: &Value) -> Result<Vec<Row>, WireFault>
    ensures { ReadGivesBy (λ v. v.items) result (rows_at version (view value.now)) }
{
    each_row(
        alloc,
        version,
        value.as_array().ok_or(WireFault::NotMessage)?,
    )
}
