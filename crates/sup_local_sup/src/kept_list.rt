//! The kept list: a map in the order in which children came, and behind it what came while no room could be had for it.
//!
//! A planned change brings list nodes, and these are hung on behind the map with no memory asked for; only then does the
//! list try to move them into the map. So nothing that was planned can be refused, and no supervisor's contract speaks of
//! room.
ghost use Rattle.std.specs.Prelude.{◌≡◌, ◌+◌, ◌<◌, ◌^◌, ◌++◌, [], length};
ghost use Rattle.std.specs.Str.{bytes_eq};
ghost use Rattle.std.specs.Map.{lookup, keys_of};
ghost use Rattle.std.specs.List.{IsDistinct};
ghost use Rattle.std.specs.Option.{option_copied};
ghost use Rattle.sup_local_sup.specs.Supervising.{others};
ghost use Rattle.sup_local_sup.specs.Planning.{renewed_in};
ghost use Rattle.sup_local_sup.specs.Changing.{without, TextsRise};

pub mod walk;

use crate::effect::Incarnation;
use crate::kept::Entry;
use crate::kept_entry::KeptEntry;
use crate::late::{found_late, move_in, remove_each_late, remove_late, renew_late};
use crate::settled::{keep_none_of, renew_settled};
use indexmap::IndexMap;
use std::alloc::Global;
use std::collections::LinkedList;
use std::marker::Model;
use sup_specs::ChildId;
use walk::KeptWalk;

/// The kept children, each found by its id, in the order in which they came; a restart keeps a child's place. A contract
/// sees a list.
#[derive(Drop)]
pub struct KeptList {
    map: IndexMap<ChildId, KeptEntry>,
    // The newest, for which no room was to be had in the map. There are none in almost every state.
    late: LinkedList<(ChildId, KeptEntry)>,
}

impl Model for KeptList {
    ghost use Rattle.std.specs.Prelude.{List, ◌++◌};
    ghost use Rattle.std.specs.Str.{bytes_eq};
    ghost use Rattle.std.specs.Map.{keys_of};
    ghost use Rattle.std.specs.List.{IsDistinct};
    ghost use Rattle.sup_local_sup.specs.Keeping.{KeptChild};

    ghost Value = { List KeptChild };

    ghost view = { λ l. l.map.entries ++ l.late };

    // An id is kept once.
    ghost invariant = { λ l. IsDistinct bytes_eq (keys_of (l.map.entries ++ l.late)) };
}

impl KeptList {
    // No children.
    pub(crate) fn new(alloc: Global) -> KeptList
        ensures { result ≡ [] }
    {
        KeptList {
            map: IndexMap::new(alloc),
            late: LinkedList::new(alloc),
        }
    }

    // What a map keeps.
    pub(crate) fn of(alloc: Global, map: IndexMap<ChildId, KeptEntry>) -> KeptList
        ensures { result ≡ map.entries }
    {
        // For its clause alone: an id is in the map once.
        let _once = map.len();
        KeptList {
            map,
            late: LinkedList::new(alloc),
        }
    }

    /// How many are kept. An id is kept once.
    pub fn len(&self) -> usize
        ensures len { result ≡ length self.now }
        ensures unique { IsDistinct bytes_eq (keys_of self.now) }
    {
        self.map.len() + self.late.len()
    }

    /// The kept children, each with what is kept of it, in their order.
    pub fn iter(&self) -> KeptWalk<'_>
        ensures { result ≡ self.now }
    {
        KeptWalk::new(self.map.iter(), self.late.iter())
    }

    // Lets all go.
    pub(crate) fn clear(&mut self)
        ensures { self.new ≡ [] }
    {
        self.map.clear();
        self.late.clear();
    }

    /// What is kept under an id, or none.
    pub fn get(&self, id: &ChildId) -> Option<&Entry>
        ensures { option_copied result ≡ lookup (bytes_eq id.now) self.now }
    {
        match self.map.get(id) {
            Some(kept) => Some(kept.entry()),
            None => found_late(&self.late, id),
        }
    }

    // What is kept under an id, unless it is this one.
    pub(crate) fn get_other(&self, ended: &ChildId, id: &ChildId) -> Option<&Entry>
        ensures { option_copied result ≡ lookup (bytes_eq id.now) (others self.now ended.now) }
    {
        if ended == id { None } else { self.get(id) }
    }

    // An id is kept once.
    pub(crate) fn once(&self)
        ensures { IsDistinct bytes_eq (keys_of self.now) }
    {
        let _opened = &self.late;
    }

    // Lets one go.
    pub(crate) fn remove(&mut self, id: &ChildId)
        ensures { self.new ≡ others self.old id.now }
    {
        // For its clause alone: an id is in the map once.
        let _once = self.map.len();
        let _gone = self.map.shift_remove(id);
        remove_late(&mut self.late, id);
    }

    // Puts another run in the place of a child's last one, where it is kept.
    pub(crate) fn renew(&mut self, id: &ChildId, inc: Incarnation)
        ensures { self.new ≡ renewed_in self.old id.now inc (lookup (bytes_eq id.now) self.old) }
    {
        if self.map.contains_key(id) {
            renew_settled(&mut self.map, id, inc);
        } else {
            renew_late(&mut self.late, id, inc);
        }
    }

    // Lets go what is kept under these ids: one pass over the map where several go, else a look-up for each.
    pub(crate) fn remove_among(&mut self, ids: &[ChildId], several: bool)
        requires { TextsRise ids.now }
        ensures { self.new ≡ without self.old ids.now }
    {
        if several {
            self.remove_several(ids);
        } else {
            self.remove_each(ids);
        }
    }

    // One pass over the map, and then each id behind it.
    fn remove_several(&mut self, ids: &[ChildId])
        requires { TextsRise ids.now }
        ensures { self.new ≡ without self.old ids.now }
    {
        keep_none_of(&mut self.map, ids);
        remove_each_late(&mut self.late, ids);
    }

    // One after the other.
    fn remove_each(&mut self, ids: &[ChildId])
        ensures { self.new ≡ without self.old ids.now }
    {
        for id in ids {
            self.remove(id);
        }
    }

    // Puts these behind the rest. It can't be refused, since they bring their memory.
    pub(crate) fn append(&mut self, fresh: LinkedList<(ChildId, KeptEntry)>)
        requires fits { length self.old + length fresh < 2 ^ 63 }
        requires once { IsDistinct bytes_eq (keys_of (self.old ++ fresh)) }
        ensures { self.new ≡ self.old ++ fresh }
    {
        let mut fresh = fresh;
        self.late.append(&mut fresh).unwrap();
        self.settle();
    }

    // Moves into the map what stands behind it. This asks for memory after what was planned has been carried out, and even
    // after a save; it may, since nothing is lost where it is refused: they stand where they are till the next time.
    fn settle(&mut self)
        ensures { self.new ≡ self.old }
    {
        if self.map.reserve(self.late.len()).is_ok() {
            move_in(&mut self.map, &mut self.late);
        }
    }
}

impl<'a> IntoIterator for &'a KeptList {
    type Item = (&'a ChildId, &'a Entry);

    type IntoIter = KeptWalk<'a>;

    ghost into_iter_gives = { λ l r. r ≡ l.now };

    fn into_iter(self) -> KeptWalk<'a> {
        self.iter()
    }
}
