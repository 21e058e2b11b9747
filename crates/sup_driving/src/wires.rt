//! A driver's ends of the links to the other nodes.
ghost use Rattle.std.specs.Prelude.{◌≡◌, [], ◌∷◌, IfOk, IfErr, OnOk};
ghost use Rattle.std.specs.List.{AllZip};
ghost use Rattle.sup_replica.specs.Nodes.{is_named};
ghost use Rattle.sup_driving.specs.Wires.{HasPut, HavePut, IsEnded, StopsPutting};

use std::alloc::{AllocError, Global};
use std::sync::Wait;
use sup_links::{LinkIn, Sent};
use sup_posts::ThreadFault;
use sup_replica::Letter;
use sup_specs::NodeName;

/// The end of a link, and the node to which it leads.
#[derive(Drop)]
pub(crate) struct Wire {
    pub(crate) to: NodeName,
    pub(crate) entry: LinkIn,
}

// Whether the letter is for this node.
#[tactic(auto, using(sup_plan::proofs::ComparedNameLaws::named))]
fn is_for(node: &NodeName, letter: &Letter) -> bool
    ensures { result ≡ is_named node.now letter.now.to }
{
    *node == letter.to
}

// Puts a letter, if it is for the link's node.
fn put_one<R: Wait>(
    rt: &R,
    alloc: Global,
    letter: &Letter,
    wire: &mut Wire,
) -> Result<(), ThreadFault>
    ensures put { OnOk result (HasPut letter.now wire.old wire.new) }
    ensures fault { IfErr result (StopsPutting (wire.new ∷ [])) }
{
    if is_for(&wire.to, letter) {
        let text = letter.bytes.as_slice().to_vec(alloc)?;
        wire.entry.put(rt, text)?;
    }
    Ok(())
}

// Puts a letter into the link to its node.
pub(crate) fn put_letter<R: Wait>(
    rt: &R,
    alloc: Global,
    letter: &Letter,
    wires: &mut [Wire],
) -> Result<(), ThreadFault>
    ensures put { OnOk result (AllZip (HasPut letter.now) wires.old wires.new) }
    ensures fault { IfErr result (StopsPutting wires.new) }
{
    let Some((first, others)) = wires.split_first_mut() else {
        return Ok(());
    };
    put_one(rt, alloc, letter, first)?;
    put_letter(rt, alloc, letter, others)
}

// Puts letters in their order, each into the link to its node.
pub(crate) fn put_letters<R: Wait>(
    rt: &R,
    alloc: Global,
    letters: Vec<Letter>,
    wires: &mut [Wire],
) -> Result<(), ThreadFault>
    ensures put { OnOk result (AllZip (HavePut letters.items) wires.old wires.new) }
    ensures fault { IfErr result (StopsPutting wires.new) }
{
    for letter in letters {
        put_letter(rt, alloc, &letter, wires)?;
    }
    Ok(())
}

// Puts the end marks, and keeps nothing.
pub(crate) fn end_each<R: Wait>(rt: &R, wires: Vec<Wire>) {
    for wire in wires {
        let Wire { to: _, entry } = wire;
        let _ = entry.end(rt);
    }
}

// Puts the end marks, also where memory is refused. Gives the ended links, of which it stays known what was put.
pub(crate) fn end_all<R: Wait>(
    rt: &R,
    alloc: Global,
    wires: Vec<Wire>,
) -> Result<Vec<Sent>, AllocError>
    ensures { IfOk result (λ ended. AllZip IsEnded wires.items ended.items) }
{
    let mut ended = match Vec::with_capacity(alloc, wires.len()) {
        Ok(room) => room,
        Err(refused) => {
            end_each(rt, wires);
            return Err(refused);
        }
    };
    for wire in wires {
        let Wire { to: _, entry } = wire;
        ended.push(entry.end(rt))?;
    }
    Ok(ended)
}
