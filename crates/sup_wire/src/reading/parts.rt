//! Tables: read first, and judged after all forms were read.
ghost use Rattle.std.specs.Prelude.{◌≡◌};
ghost use Rattle.serde_json.specs.View.{view};
ghost use Rattle.sup_wire.specs.FieldReads.{ReadGivesBy};
ghost use Rattle.sup_wire.specs.DraftReads.{rows_in, parts_at, parts_read, SealsParts};

use crate::fault::WireFault;
use crate::reading::context::context_in;
use crate::reading::rows::rows_of;
use crate::version::Version;
use serde_json::Value;
use std::alloc::Global;
use sup_causal::{CausalContext, Dot};
use sup_specs::NodeName;
use sup_tables::{Row, Tables};

#[tactic(auto, unfolding(crate::specs::DraftReads::rows_in))]
fn rows_in(alloc: Global, version: Version, value: &Value) -> Result<Vec<Row>, WireFault>
    ensures { ReadGivesBy (λ v. v.items) result (rows_in version (view value.now)) }
{
    rows_of(
        alloc,
        version,
        value.get("rows").ok_or(WireFault::NotMessage)?,
    )
}

// Tables, before they are known to be canonical.
#[derive(Drop)]
pub(crate) struct Parts {
    pub(crate) vector: Vec<(NodeName, u64)>,
    pub(crate) cloud: Vec<Dot>,
    pub(crate) rows: Vec<Row>,
}

#[tactic(auto, unfolding(crate::specs::DraftReads::parts_at))]
pub(crate) fn parts_of(alloc: Global, version: Version, value: &Value) -> Result<Parts, WireFault>
    ensures { ReadGivesBy parts_read result (parts_at version (view value.now)) }
{
    let context = context_in(alloc, value)?;
    let rows = rows_in(alloc, version, value)?;
    Ok(Parts {
        vector: context.vector,
        cloud: context.cloud,
        rows,
    })
}

// The tables of these parts, where they are canonical.
pub(crate) fn tables_of(alloc: Global, parts: Parts) -> Result<Tables, WireFault>
    ensures { SealsParts result (parts_read parts) }
{
    let context = CausalContext::from_parts(alloc, &parts.vector, &parts.cloud)?;
    let tables = Tables::from_rows(alloc, context, parts.rows)?;
    // For the clause: tables are in their one form, and their dots' counters are in their limits.
    tables.context().counted();
    Ok(tables)
}
