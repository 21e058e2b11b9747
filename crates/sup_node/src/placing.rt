//! Which children run on a node.
ghost use Rattle.std.specs.Prelude.{◌≡◌, ◌++◌, IfOk, OnOk};
ghost use Rattle.sup_tables.specs.Lent.{winner_lent};
ghost use Rattle.sup_tables.specs.Stored.{child_row};
ghost use Rattle.sup_local_sup.specs.Keeping.{IdsRise, AreCounted};
ghost use Rattle.sup_placement.specs.Place.{place};
ghost use Rattle.sup_replica.specs.Nodes.{is_placed_on, wanted_row, wanted_at};

use std::alloc::{AllocError, Global};
use sup_local_sup::Wanted;
use sup_placement::{Weigh, place};
use sup_specs::{ChildId, ChildSpec, NodeName, Plain};
use sup_tables::{Tables, Winner};

// The children that are placed on this node, by id, each with its winning dot. One pass over the children's winners,
// with a weighing of all open members for each.
pub(crate) fn wanted_at<W: Weigh>(
    alloc: Global,
    weigher: &W,
    me: &NodeName,
    tables: &Tables,
) -> Result<Vec<Wanted>, AllocError>
    ensures items { IfOk result (λ wanted. wanted.items ≡ wanted_at W.weight_of me.now tables.now.rows) }
    ensures rise { IfOk result (λ wanted. IdsRise wanted.items) }
    ensures counted { IfOk result (λ wanted. AreCounted wanted.items) }
{
    let wanted = listed(alloc, weigher, me, tables)?;
    Ok(wanted)
}

fn listed<W: Weigh>(
    alloc: Global,
    weigher: &W,
    me: &NodeName,
    tables: &Tables,
) -> Result<Vec<Wanted>, AllocError>
    ensures items { IfOk result (λ wanted. wanted.items ≡ wanted_at W.weight_of me.now tables.now.rows) }
    ensures counted { IfOk result (λ wanted. AreCounted wanted.items) }
{
    let hosts = tables.eligible()?;
    let winners = tables.children()?;
    let mut wanted = Vec::new(alloc);
    for winner in &winners {
        push_wanted(alloc, &mut wanted, weigher, me, &hosts, winner)?;
    }
    Ok(wanted)
}

// Adds the child where it's placed on this node.
fn push_wanted<W: Weigh>(
    alloc: Global,
    wanted: &mut Vec<Wanted>,
    weigher: &W,
    me: &NodeName,
    hosts: &[NodeName],
    winner: &Winner<ChildId, ChildSpec>,
) -> Result<(), AllocError>
    ensures { OnOk result (wanted.new.items ≡ wanted.old.items
        ++ wanted_row W.weight_of me.now hosts.now (winner_lent child_row winner.now)) }
{
    if is_here(weigher, me, hosts, winner.key) {
        wanted.push(Wanted {
            id: winner.key.try_clone(alloc)?,
            dot: *winner.dot,
            spec: winner.value.try_clone(alloc)?,
        })?;
    }
    Ok(())
}

// Whether a child is placed on this node.
pub(crate) fn is_here<W: Weigh>(
    weigher: &W,
    me: &NodeName,
    hosts: &[NodeName],
    id: &ChildId,
) -> bool
    ensures { result ≡ is_placed_on me.now (place W.weight_of hosts.now id.now) }
{
    match place(weigher, hosts, id) {
        Some(member) => member.cmp(me).is_eq(),
        None => false,
    }
}
