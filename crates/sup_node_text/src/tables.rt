//! What is shown of tables.

ghost use Rattle.std.specs.Prelude.{◌≡◌, IfOk, string_bytes};
ghost use Rattle.std.specs.List.{flat_map};
ghost use Rattle.sup_tables.specs.Rows.{children, members, names};
ghost use Rattle.sup_tables.specs.Readers.{eligible, winners};
ghost use Rattle.sup_tables.specs.Stored.{child_row, member_row, name_row};
ghost use Rattle.sup_node.specs.Contents.{where_told};
ghost use Rattle.sup_node.specs.Whereabouts.{where_child};
ghost use Rattle.sup_node_text.specs.Lines.{IsTextOf, name_line};
ghost use Rattle.sup_node_text.specs.Shown.{child_lines, loser_lines, member_lines, name_lines, tables_text};

use crate::line::{ChildLine, MemberLine};
use crate::losers::losers_text;
use crate::place::LeadText;
use std::alloc::{AllocError, Global};
use sup_node::Whereis;
use sup_placement::{Weigh, place};
use sup_specs::{ChildId, ChildSpec, MemberInfo, Name, NodeName};
use sup_tables::{Tables, Winner};
use sup_text::DotText;

/// The lines of what tables show: of each table each key's winner, by key, and behind it the key's losers.
///
/// # Errors
///
/// Refused only for memory.
pub fn tables_text<W: Weigh>(
    alloc: Global,
    tables: &Tables,
    weigher: &W,
) -> Result<String, AllocError>
    ensures { IfOk result (λ s. string_bytes s ≡ tables_text W.weight_of tables.now.rows) }
{
    let hosts = tables.eligible()?;
    let members = members_text(alloc, tables)?;
    let members = members.as_str();
    let children = children_text(alloc, tables, weigher, &hosts)?;
    let children = children.as_str();
    let names = names_text(alloc, tables, weigher, &hosts)?;
    let names = names.as_str();
    format!(in alloc; "{members}{children}{names}")
}

fn members_text(alloc: Global, tables: &Tables) -> Result<String, AllocError>
    ensures { IfOk result (λ s. string_bytes s ≡ flat_map (member_lines tables.now.rows) (winners tables.now.rows members)) }
{
    let winners = tables.members()?;
    let mut text = String::new(alloc);
    for winner in &winners {
        let lines = member_text(alloc, tables, winner)?;
        text.push_str(lines.as_str())?;
    }
    Ok(text)
}

fn member_text(
    alloc: Global,
    tables: &Tables,
    winner: &Winner<NodeName, MemberInfo>,
) -> Result<String, AllocError>
    ensures { IsTextOf (member_lines tables.now.rows (member_row winner.now.key.now winner.now.dot.now winner.now.value.now)) result }
{
    let losers = member_losers_text(alloc, tables, winner.key)?;
    let losers = losers.as_str();
    let line = MemberLine {
        member: winner.key,
        dot: *winner.dot,
        info: winner.value,
    };
    format!(in alloc; "{line}{losers}")
}

// The lines of a member's losers.
fn member_losers_text(
    alloc: Global,
    tables: &Tables,
    member: &NodeName,
) -> Result<String, AllocError>
    ensures { IfOk result (λ s. string_bytes s ≡ loser_lines tables.now.rows members member.now) }
{
    let losers = tables.member_losers(member)?;
    let lines = losers_text(alloc, "member", member.as_str(), &losers)?;
    Ok(lines)
}

fn children_text<W: Weigh>(
    alloc: Global,
    tables: &Tables,
    weigher: &W,
    hosts: &[NodeName],
) -> Result<String, AllocError>
    requires { hosts.now ≡ eligible tables.now.rows }
    ensures { IfOk result (λ s. string_bytes s ≡ flat_map (child_lines W.weight_of tables.now.rows) (winners tables.now.rows children)) }
{
    let winners = tables.children()?;
    let mut text = String::new(alloc);
    for winner in &winners {
        let lines = child_text(alloc, tables, weigher, hosts, winner)?;
        text.push_str(lines.as_str())?;
    }
    Ok(text)
}

fn child_text<W: Weigh>(
    alloc: Global,
    tables: &Tables,
    weigher: &W,
    hosts: &[NodeName],
    winner: &Winner<ChildId, ChildSpec>,
) -> Result<String, AllocError>
    requires { hosts.now ≡ eligible tables.now.rows }
    ensures { IsTextOf (child_lines W.weight_of tables.now.rows (child_row winner.now.key.now winner.now.dot.now winner.now.value.now)) result }
{
    let losers = child_losers_text(alloc, tables, winner.key)?;
    let losers = losers.as_str();
    let place = place(weigher, hosts, winner.key);
    let line = ChildLine {
        id: winner.key,
        dot: *winner.dot,
        spec: winner.value,
        place,
    };
    format!(in alloc; "{line}{losers}")
}

// The lines of a child's losers.
fn child_losers_text(alloc: Global, tables: &Tables, id: &ChildId) -> Result<String, AllocError>
    ensures { IfOk result (λ s. string_bytes s ≡ loser_lines tables.now.rows children id.now) }
{
    let losers = tables.child_losers(id)?;
    let lines = losers_text(alloc, "child", id.as_str(), &losers)?;
    Ok(lines)
}

fn names_text<W: Weigh>(
    alloc: Global,
    tables: &Tables,
    weigher: &W,
    hosts: &[NodeName],
) -> Result<String, AllocError>
    requires { hosts.now ≡ eligible tables.now.rows }
    ensures { IfOk result (λ s. string_bytes s ≡ flat_map (name_lines W.weight_of tables.now.rows) (winners tables.now.rows names)) }
{
    let winners = tables.names()?;
    let mut text = String::new(alloc);
    for winner in &winners {
        let lines = name_text(alloc, tables, weigher, hosts, winner)?;
        text.push_str(lines.as_str())?;
    }
    Ok(text)
}

fn name_text<W: Weigh>(
    alloc: Global,
    tables: &Tables,
    weigher: &W,
    hosts: &[NodeName],
    winner: &Winner<Name, ChildId>,
) -> Result<String, AllocError>
    requires { hosts.now ≡ eligible tables.now.rows }
    ensures { IsTextOf (name_lines W.weight_of tables.now.rows (name_row winner.now.key.now winner.now.dot.now winner.now.value.now)) result }
{
    let losers = name_losers_text(alloc, tables, winner.key)?;
    let losers = losers.as_str();
    let line = name_line(alloc, weigher, hosts, tables, winner)?;
    let line = line.as_str();
    format!(in alloc; "{line}{losers}")
}

// The lines of a name's losers.
fn name_losers_text(alloc: Global, tables: &Tables, name: &Name) -> Result<String, AllocError>
    ensures { IfOk result (λ s. string_bytes s ≡ loser_lines tables.now.rows names name.now) }
{
    let losers = tables.name_losers(name)?;
    let lines = losers_text(alloc, "name", name.as_str(), &losers)?;
    Ok(lines)
}

fn name_line<W: Weigh>(
    alloc: Global,
    weigher: &W,
    hosts: &[NodeName],
    tables: &Tables,
    winner: &Winner<Name, ChildId>,
) -> Result<String, AllocError>
    requires { hosts.now ≡ eligible tables.now.rows }
    ensures { IsTextOf (name_line winner.now.key.now winner.now.dot.now (where_child W.weight_of tables.now.rows winner.now.value.now)) result }
{
    let lead = LeadText(lead_of(weigher, hosts, tables, winner.value));
    let name = winner.key.as_str();
    let dot = DotText(*winner.dot);
    format!(in alloc; "name {name} {dot} {lead}\n")
}

// Where a name leads that stands for this child.
fn lead_of<'a, W: Weigh>(
    weigher: &W,
    hosts: &[NodeName],
    tables: &Tables,
    id: &'a ChildId,
) -> Whereis<'a>
    requires { hosts.now ≡ eligible tables.now.rows }
    ensures { where_told result ≡ where_child W.weight_of tables.now.rows id.now }
{
    if tables.child(id).is_none() {
        return Whereis::Gone(id);
    }
    match place(weigher, hosts, id) {
        None => Whereis::Unplaced(id),
        Some(member) => Whereis::On(id, member),
    }
}
