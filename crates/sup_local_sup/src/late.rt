//! What stands behind the map, for want of room in it: almost always nothing.
ghost use Rattle.std.specs.Prelude.{◌≡◌, ◌+◌, ◌<◌, ◌≤◌, ◌++◌, length, take, drop};
ghost use Rattle.std.specs.Str.{bytes_eq};
ghost use Rattle.std.specs.Map.{lookup};
ghost use Rattle.std.specs.Option.{option_copied};
ghost use Rattle.indexmap.specs.IndexMap.{spare};
ghost use Rattle.sup_local_sup.specs.Supervising.{others};
ghost use Rattle.sup_local_sup.specs.Changing.{without};
ghost use Rattle.sup_local_sup.specs.Places.{place_from, renewed_first};
ghost use Rattle.sup_local_sup.specs.Planning.{renewed_in};

use crate::effect::Incarnation;
use crate::kept::Entry;
use crate::kept_entry::KeptEntry;
use indexmap::IndexMap;
use std::collections::LinkedList;
use sup_specs::ChildId;

// What stands there under an id.
pub(crate) fn found_late<'a>(
    late: &'a LinkedList<(ChildId, KeptEntry)>,
    id: &ChildId,
) -> Option<&'a Entry>
    ensures { option_copied result ≡ lookup (bytes_eq id.now) late.now }
{
    for (other, kept) in late {
        if id == other {
            return Some(kept.entry());
        }
    }
    None
}

// Where an id stands first.
fn place_of(late: &LinkedList<(ChildId, KeptEntry)>, id: &ChildId) -> Option<usize>
    ensures { result ≡ place_from (bytes_eq id.now) 0 late.now }
{
    // For its clause alone: a place fits in a word.
    let _fits = late.len();
    let mut at = 0;
    for (other, _) in late {
        if id == other {
            return Some(at);
        }
        at += 1;
    }
    None
}

// Lets go what stands there under an id.
pub(crate) fn remove_late(late: &mut LinkedList<(ChildId, KeptEntry)>, id: &ChildId)
    ensures { late.new ≡ others late.old id.now }
{
    while let Some(at) = place_of(late, id) {
        take_out(late, at);
    }
}

// Lets go what stands at a place.
fn take_out(late: &mut LinkedList<(ChildId, KeptEntry)>, at: usize)
    requires { at < length late.old }
    ensures { late.new ≡ take at late.old ++ drop (at + 1) late.old }
{
    // For its clause alone: so many fit in two lists.
    let _fits = late.len();
    let mut rest = late.split_off(at).unwrap();
    let _gone = rest.pop_front();
    late.append(&mut rest).unwrap();
}

// Moves what stands there into the map, as far as its ids are new. There is room for it.
pub(crate) fn move_in(
    map: &mut IndexMap<ChildId, KeptEntry>,
    late: &mut LinkedList<(ChildId, KeptEntry)>,
)
    requires { length late.old ≤ spare map.old }
    ensures { map.new.entries ++ late.new ≡ map.old.entries ++ late.old }
{
    while let Some((id, _)) = late.front() {
        if map.contains_key(id) {
            return;
        }
        if let Some((id, kept)) = late.pop_front() {
            map.insert(id, kept).unwrap();
        }
    }
}

// Lets go what stands there under these ids. Mostly nothing stands there.
pub(crate) fn remove_each_late(late: &mut LinkedList<(ChildId, KeptEntry)>, ids: &[ChildId])
    ensures { late.new ≡ without late.old ids.now }
{
    if late.is_empty() {
        return;
    }
    for id in ids {
        remove_late(late, id);
    }
}

// Puts another run in the place of a child's last one, where it stands there.
pub(crate) fn renew_late(
    late: &mut LinkedList<(ChildId, KeptEntry)>,
    id: &ChildId,
    inc: Incarnation,
)
    ensures { late.new ≡ renewed_in late.old id.now inc (lookup (bytes_eq id.now) late.old) }
{
    if let Some(at) = place_of(late, id) {
        renew_at(late, at, inc);
    }
}

// Puts another run in the place of the last one of what stands at a place.
fn renew_at(late: &mut LinkedList<(ChildId, KeptEntry)>, at: usize, inc: Incarnation)
    requires { at < length late.old }
    ensures { late.new ≡ take at late.old ++ renewed_first inc (drop at late.old) }
{
    // For its clause alone: so many fit in two lists.
    let _fits = late.len();
    let mut rest = late.split_off(at).unwrap();
    if let Some(first) = rest.front_mut() {
        first.1.renew(inc);
    }
    late.append(&mut rest).unwrap();
}
