//! One pass over what is kept and what is wanted.
ghost use Rattle.std.specs.Prelude.{◌≡◌, ◌+◌, ◌<◌, ◌≤◌, ◌++◌, [], ◌∷◌, map, filter, reverse, not, length, IfOk, OnOk, Err};
ghost use Rattle.sup_local_sup.specs.Keeping.{is_wanted, is_kept, numbered, newly, staying, kept_of, stop, stops, start, IdsRise};
ghost use Rattle.sup_local_sup.specs.Supervising.{others};
ghost use Rattle.sup_local_sup.specs.declared.fault.SupFault.TheVariants.{CountSpent};
ghost use Rattle.sup_specs.specs.declared.limits.TheConstants.{MAX as MOST};
ghost use Rattle.std.specs.Str.{bytes_eq};
ghost use Rattle.std.specs.Map.{keys_of, lookup};
ghost use Rattle.std.specs.List.{IsDistinct};
ghost use Rattle.indexmap.specs.IndexMap.{KeepsRoom, spare};

use crate::effect::{Effect, Incarnation};
use crate::fault::SupFault;
use crate::kept::Entry;
use crate::kept_entry::KeptEntry;
use crate::kept_list::KeptList;
use crate::wanted::Wanted;
use indexmap::IndexMap;
use std::alloc::{AllocError, Global};
use sup_specs::{ChildId, MAX, Plain};

// Whether a kept entry is wanted.
pub(crate) fn is_wanted(wanted: &[Wanted], id: &ChildId, entry: &Entry) -> bool
    requires { IdsRise wanted.now }
    ensures { result ≡ is_wanted wanted.now (id.now, entry.now) }
{
    match wanted.binary_search_by(|w| w.id.cmp(id)) {
        Ok(at) => entry.dot.cmp(&wanted[at].dot).is_eq(),
        Err(_) => false,
    }
}

// Whether a wanted entry is kept.
pub(crate) fn is_kept(kept: &IndexMap<ChildId, KeptEntry>, w: &Wanted) -> bool
    ensures { result ≡ is_kept kept.now.entries w.now }
{
    // For its clause alone: an id is kept once.
    let _once = kept.len();
    match kept.get(&w.id) {
        Some(kept) => w.dot.cmp(&kept.entry().dot).is_eq(),
        None => false,
    }
}

// The number of the next run of a boot that gave so many out.
pub(crate) fn next_number(given: u64) -> Result<u64, SupFault>
    ensures next { IfOk result (λ k. k ≡ given + 1) }
    ensures within { OnOk result (given < MOST) }
    ensures spent { (result ≡ Err CountSpent) → MOST ≤ given }
{
    if given >= MAX {
        return Err(SupFault::CountSpent);
    }
    Ok(given + 1)
}

// What is newly kept, each with the next incarnation.
pub(crate) fn fresh(
    alloc: Global,
    boot: u64,
    given: u64,
    kept: &IndexMap<ChildId, KeptEntry>,
    wanted: &[Wanted],
) -> Result<Vec<(ChildId, KeptEntry)>, SupFault>
    requires { given ≤ MOST }
    ensures items { IfOk result (λ fresh. fresh.items ≡ numbered boot given (newly kept.now.entries wanted.now)) }
    ensures within { OnOk result (given + length (newly kept.now.entries wanted.now) ≤ MOST) }
    ensures spent { (result ≡ Err CountSpent) → MOST < given + length (newly kept.now.entries wanted.now) }
{
    let mut fresh = Vec::new(alloc);
    let mut k = given;
    for w in wanted {
        if !is_kept(kept, w) {
            k = next_number(k)?;
            push_newly(alloc, &mut fresh, boot, k, w)?;
        }
    }
    Ok(fresh)
}

// Adds what is wanted, as kept in the k-th run of this boot.
fn push_newly(
    alloc: Global,
    fresh: &mut Vec<(ChildId, KeptEntry)>,
    boot: u64,
    k: u64,
    w: &Wanted,
) -> Result<(), AllocError>
    ensures { OnOk result (fresh.new.items ≡ fresh.old.items ++ kept_of boot k w.now ∷ []) }
{
    let id = w.id.try_clone(alloc)?;
    let spec = w.spec.try_clone(alloc)?;
    let inc = Incarnation { boot, k };
    let entry = Entry {
        dot: w.dot,
        spec,
        inc,
    };
    fresh.push((id, KeptEntry::new(alloc, entry)?))?;
    Ok(())
}

// The stops of what is kept and isn't wanted, the newest first.
pub(crate) fn stops(
    alloc: Global,
    kept: &IndexMap<ChildId, KeptEntry>,
    wanted: &[Wanted],
) -> Result<Vec<Effect>, AllocError>
    requires { IdsRise wanted.now }
    ensures { IfOk result (λ e. e.items ≡ stops kept.now.entries wanted.now) }
{
    let mut stops = Vec::new(alloc);
    for (id, entry) in kept {
        if !is_wanted(wanted, id, entry.entry()) {
            stops.push(stop(alloc, id, entry.entry())?)?;
        }
    }
    stops.reverse();
    Ok(stops)
}

// The end of a kept run.
pub(crate) fn stop(alloc: Global, id: &ChildId, entry: &Entry) -> Result<Effect, AllocError>
    ensures { IfOk result (λ e. e ≡ stop (id.now, entry.now)) }
{
    Ok(Effect::Stop {
        id: id.try_clone(alloc)?,
        inc: entry.inc,
    })
}

// The begin of a kept run.
pub(crate) fn start(alloc: Global, id: &ChildId, entry: &Entry) -> Result<Effect, AllocError>
    ensures { IfOk result (λ e. e ≡ start (id.now, entry.now)) }
{
    Ok(Effect::Start {
        id: id.try_clone(alloc)?,
        inc: entry.inc,
        spec: entry.spec.try_clone(alloc)?,
    })
}

// Adds the starts of what is newly kept.
pub(crate) fn push_starts(
    alloc: Global,
    effects: &mut Vec<Effect>,
    fresh: &[(ChildId, KeptEntry)],
) -> Result<(), AllocError>
    ensures { OnOk result (effects.new.items ≡ effects.old.items ++ map start fresh.now) }
{
    for (id, entry) in fresh {
        effects.push(start(alloc, id, entry.entry())?)?;
    }
    Ok(())
}

// Lets go what isn't wanted.
pub(crate) fn keep_wanted(kept: &mut IndexMap<ChildId, KeptEntry>, wanted: &[Wanted])
    requires { IdsRise wanted.now }
    ensures entries { kept.new.entries ≡ staying kept.old.entries wanted.now }
    ensures room { KeepsRoom kept.old kept.new }
{
    kept.retain(
        |id: &ChildId, entry: &mut KeptEntry| -> bool
            requires { IdsRise wanted.now }
            ensures { (result ≡ is_wanted wanted.entry.now (id.now, entry.old)) × (entry.new ≡ entry.old) }
        { is_wanted(wanted, id, entry.entry()) },
    );
}

// Adds what is newly kept, behind the rest. There is room for it.
pub(crate) fn push_fresh(kept: &mut IndexMap<ChildId, KeptEntry>, fresh: Vec<(ChildId, KeptEntry)>)
    requires room { length fresh.items ≤ spare kept.old }
    requires new { IsDistinct bytes_eq (keys_of (kept.old.entries ++ fresh.items)) }
    ensures { kept.new.entries ≡ kept.old.entries ++ fresh.items }
{
    for (id, entry) in fresh {
        kept.insert(id, entry).unwrap();
    }
}

// The stops of all kept children but one, the newest first.
pub(crate) fn stops_of_others(
    alloc: Global,
    kept: &KeptList,
    id: &ChildId,
) -> Result<Vec<Effect>, AllocError>
    ensures { IfOk result (λ e. e.items ≡ reverse (map stop (others kept.now id.now))) }
{
    let mut stops = Vec::new(alloc);
    for (other, entry) in kept {
        if id != other {
            stops.push(stop(alloc, other, entry)?)?;
        }
    }
    stops.reverse();
    Ok(stops)
}

// A copy of what is kept.
pub(crate) fn copied(
    alloc: Global,
    kept: &KeptList,
) -> Result<IndexMap<ChildId, KeptEntry>, AllocError>
    ensures { IfOk result (λ copy. copy.entries ≡ kept.now) }
{
    // For its clause alone: an id is kept once.
    kept.once();
    let entries = pairs(alloc, kept)?;
    let mut copy = IndexMap::new(alloc);
    copy.reserve(entries.len())?;
    push_fresh(&mut copy, entries);
    Ok(copy)
}

// Copies of what is kept, in a list.
fn pairs(alloc: Global, kept: &KeptList) -> Result<Vec<(ChildId, KeptEntry)>, AllocError>
    ensures { IfOk result (λ pairs. pairs.items ≡ kept.now) }
{
    let mut pairs = Vec::new(alloc);
    for (id, entry) in kept {
        push_copy(alloc, &mut pairs, id, entry)?;
    }
    Ok(pairs)
}

// Adds a copy of what is kept under an id.
fn push_copy(
    alloc: Global,
    pairs: &mut Vec<(ChildId, KeptEntry)>,
    id: &ChildId,
    entry: &Entry,
) -> Result<(), AllocError>
    ensures { OnOk result (pairs.new.items ≡ pairs.old.items ++ (id.now, entry.now) ∷ []) }
{
    let id = id.try_clone(alloc)?;
    let spec = entry.spec.try_clone(alloc)?;
    let copy = Entry {
        dot: entry.dot,
        spec,
        inc: entry.inc,
    };
    pairs.push((id, KeptEntry::new(alloc, copy)?))?;
    Ok(())
}

// Lets one go.
pub(crate) fn keep_others(kept: &mut IndexMap<ChildId, KeptEntry>, id: &ChildId)
    ensures { kept.new.entries ≡ others kept.old.entries id.now }
{
    kept.retain(
        |other: &ChildId, entry: &mut KeptEntry| -> bool
            ensures { (result ≡ not (bytes_eq id.entry.now other.now)) × (entry.new ≡ entry.old) }
        { id != other },
    );
}
