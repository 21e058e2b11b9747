//! What `place` reads: members, and the ids of children.

ghost use Rattle.std.specs.Prelude.{map};
ghost use Rattle.sup_lines.specs.Words.{Reads, texts};
ghost use Rattle.sup_lines.specs.Script.{ReadsAll, ReadsLine, each_of};
ghost use Rattle.sup_placing.specs.Placing.{id_in, members_in, members_of, placing_of};

use std::alloc::Global;
use sup_lines::{
    LineFault, MOST_NODES, NumberedLine, ScriptFault, number_lines, plain_text, read_child_id,
    read_distinct, words_of,
};
use sup_specs::{ChildId, NodeName};

/// The members, and the ids of the lines after them.
#[derive(Drop)]
pub struct Placing {
    pub members: Vec<NodeName>,
    pub ids: Vec<ChildId>,
}

/// Reads members and ids. A fault names the first bad line by its number from 1, or 0 where all
/// lines are skipped.
pub fn read_placing(alloc: Global, bytes: &[u8]) -> Result<Placing, ScriptFault>
    ensures { ReadsAll (λ p. (p.members.items, p.ids.items)) result (placing_of bytes.now) }
{
    let lines = number_lines(alloc, bytes)?;
    match lines.as_slice() {
        [] => Err(ScriptFault::BadLine(0)),
        [first, others @ ..] => match read_members_line(alloc, first.bytes) {
            Ok(members) => {
                let ids = read_ids(alloc, others)?;
                Ok(Placing { members, ids })
            }
            Err(fault) => Err(fault.at(first.number)),
        },
    }
}

fn read_ids(alloc: Global, lines: &[NumberedLine]) -> Result<Vec<ChildId>, ScriptFault>
    ensures { ReadsAll (λ v. v.items) result
        (each_of id_in (map (λ l. (l.number, l.bytes.now)) lines.now)) }
{
    let mut ids = Vec::new(alloc);
    for line in lines {
        match read_id(alloc, line.bytes) {
            Ok(id) => ids.push(id)?,
            Err(fault) => return Err(fault.at(line.number)),
        }
    }
    Ok(ids)
}

#[tactic(auto, unfolding(crate::specs::Placing::id_in))]
fn read_id(alloc: Global, line: &[u8]) -> Result<ChildId, LineFault>
    ensures { Reads (λ id. id) result (id_in line.now) }
{
    match plain_text(line) {
        Some(text) => read_child_id(alloc, text),
        None => Err(LineFault::Bad),
    }
}

#[tactic(auto, unfolding(crate::specs::Placing::members_in))]
fn read_members_line(alloc: Global, line: &[u8]) -> Result<Vec<NodeName>, LineFault>
    ensures { ReadsLine (λ v. v.items) line.now result (members_in line.now) }
{
    match plain_text(line) {
        Some(text) => {
            let words = words_of(alloc, text)?;
            read_members(alloc, words.as_slice())
        }
        None => Err(LineFault::Bad),
    }
}

#[tactic(auto, unfolding(crate::specs::Placing::members_of))]
fn read_members(alloc: Global, words: &[&str]) -> Result<Vec<NodeName>, LineFault>
    ensures { Reads (λ v. v.items) result (members_of (texts words.now)) }
{
    let Some((verb, words)) = words.split_first() else {
        return Err(LineFault::Bad);
    };
    if *verb != "members" || words.len() > MOST_NODES {
        return Err(LineFault::Bad);
    }
    read_distinct(alloc, words)
}
