//! Rows.
ghost use Rattle.std.specs.Prelude.{◌≡◌, OnOk, codes};
ghost use Rattle.serde_json.specs.Data.{string};
ghost use Rattle.std.specs.List.{AllByRecursion};
ghost use Rattle.sup_tables.specs.declared.row.Entry.{Entry};
ghost use Rattle.sup_tables.specs.Rows.{row_of};
ghost use Rattle.sup_tables.specs.Lent.{row_lent, rows_lent};
ghost use Rattle.sup_wire.specs.Forms.{IsWritten, dot_value, spec_value, info_value, row_value, rows_value};
ghost use Rattle.sup_wire.specs.Writing.{AddsTokens, tokens_of, four_tokens};
ghost use Rattle.sup_wire.specs.declared.version.Version.TheVariants.{Two};

use crate::writing::context::write_dot;
use crate::writing::fields::{write_info, write_spec};
use json::Writer;
use std::alloc::AllocError;
use sup_causal::Dot;
use sup_specs::{ChildId, ChildSpec, MemberInfo, Name, NodeName};
use sup_tables::{LentEntry, LentRow};

// A row of each table: its name, key, dot and value.
fn write_member(
    out: &mut Writer,
    node: &NodeName,
    dot: &Dot,
    info: &MemberInfo,
) -> Result<(), AllocError>
    ensures formed { OnOk result (IsWritten (row_of dot.now (Entry.Member node.now info.now))) }
    ensures adds { OnOk result (AddsTokens out.old out.new (four_tokens (codes "member") node.now (dot_value dot.now) (info_value Two info.now))) }
{
    out.begin_array()?;
    out.string("member")?;
    out.string(node.as_str())?;
    write_dot(out, dot)?;
    write_info(out, info)?;
    out.end_array()
}

fn write_child(
    out: &mut Writer,
    id: &ChildId,
    dot: &Dot,
    spec: &ChildSpec,
) -> Result<(), AllocError>
    ensures formed { OnOk result (IsWritten (row_of dot.now (Entry.Child id.now spec.now))) }
    ensures adds { OnOk result (AddsTokens out.old out.new (four_tokens (codes "child") id.now (dot_value dot.now) (spec_value spec.now))) }
{
    out.begin_array()?;
    out.string("child")?;
    out.string(id.as_str())?;
    write_dot(out, dot)?;
    write_spec(out, spec)?;
    out.end_array()
}

fn write_name(out: &mut Writer, name: &Name, dot: &Dot, id: &ChildId) -> Result<(), AllocError>
    ensures formed { OnOk result (IsWritten (row_of dot.now (Entry.Name name.now id.now))) }
    ensures adds { OnOk result (AddsTokens out.old out.new (four_tokens (codes "name") name.now (dot_value dot.now) (string id.now))) }
{
    out.begin_array()?;
    out.string("name")?;
    out.string(name.as_str())?;
    write_dot(out, dot)?;
    out.string(id.as_str())?;
    out.end_array()
}

// A row.
pub(crate) fn write_row(out: &mut Writer, row: &LentRow<'_>) -> Result<(), AllocError>
    ensures formed { OnOk result (IsWritten (row_lent row.now)) }
    ensures adds { OnOk result (AddsTokens out.old out.new (tokens_of (row_value Two (row_lent row.now)))) }
{
    match row.entry {
        LentEntry::Member(node, info) => write_member(out, node, row.dot, info),
        LentEntry::Child(id, spec) => write_child(out, id, row.dot, spec),
        LentEntry::Name(name, id) => write_name(out, name, row.dot, id),
    }
}

// The rows.
pub(crate) fn write_rows(out: &mut Writer, rows: &[LentRow<'_>]) -> Result<(), AllocError>
    ensures formed { OnOk result (AllByRecursion IsWritten (rows_lent rows.now)) }
    ensures adds { OnOk result (AddsTokens out.old out.new (tokens_of (rows_value Two (rows_lent rows.now)))) }
{
    out.begin_array()?;
    for row in rows {
        write_row(out, row)?;
    }
    out.end_array()
}
