//! A walk over what is kept.
ghost use Rattle.std.specs.Prelude.{◌≡◌, ◌++◌, length};
ghost use Rattle.std.specs.Iterator.{at_most};
ghost use Rattle.std.specs.Map.Iter.{TakesFirst, deref_pair};

use crate::kept::Entry;
use crate::kept_entry::KeptEntry;
use indexmap::map;
use std::collections::linked_list;
use std::marker::Model;
use sup_specs::ChildId;

/// The kept children that are still to come, in their order. A contract sees a list.
#[derive(Drop)]
pub struct KeptWalk<'a> {
    settled: map::Iter<'a, ChildId, KeptEntry>,
    late: linked_list::Iter<'a, (ChildId, KeptEntry)>,
}

impl<'a> Model for KeptWalk<'a> {
    ghost use Rattle.std.specs.Prelude.{List, ◌++◌};
    ghost use Rattle.sup_local_sup.specs.Keeping.{KeptChild};

    ghost Value = { List KeptChild };

    ghost view = { λ w. w.settled ++ w.late };
}

impl<'a> KeptWalk<'a> {
    pub(crate) fn new(
        settled: map::Iter<'a, ChildId, KeptEntry>,
        late: linked_list::Iter<'a, (ChildId, KeptEntry)>,
    ) -> KeptWalk<'a>
        ensures { result ≡ settled.entry ++ late.entry }
    {
        KeptWalk { settled, late }
    }
}

impl<'a> Iterator for KeptWalk<'a> {
    type Item = (&'a ChildId, &'a Entry);

    ghost next_gives = { TakesFirst deref_pair };

    ghost remaining = { λ s. at_most (length s) };

    fn next(&mut self) -> Option<(&'a ChildId, &'a Entry)> {
        if let Some((id, kept)) = self.settled.next() {
            return Some((id, kept.entry()));
        }
        match self.late.next() {
            Some((id, kept)) => Some((id, kept.entry())),
            None => None,
        }
    }
}
