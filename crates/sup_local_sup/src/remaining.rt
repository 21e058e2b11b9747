//! What is kept but for a child whose run has ended.
ghost use Rattle.std.specs.Prelude.{◌≡◌, ◌++◌, map, OnOk};
ghost use Rattle.std.specs.Str.{bytes_eq};
ghost use Rattle.std.specs.Map.{lookup, keys_of};
ghost use Rattle.std.specs.List.{IsDistinct};
ghost use Rattle.std.specs.Option.{option_copied};
ghost use Rattle.sup_local_sup.specs.Keeping.{stop};
ghost use Rattle.sup_local_sup.specs.Supervising.{others};
ghost use Rattle.sup_local_sup.specs.Changing.{under, remaining_kept, TextsRise};

use crate::effect::Effect;
use crate::keeping::stop;
use crate::kept::Entry;
use crate::kept_list::KeptList;
use crate::settled::is_among;
use std::alloc::{AllocError, Global};
use sup_specs::ChildId;

// The kept children but for one whose run has ended, if any has.
#[derive(Clone, Copy)]
pub(crate) struct Remaining<'a> {
    pub list: &'a KeptList,
    pub ended: Option<&'a ChildId>,
}

impl<'a> Remaining<'a> {
    // What is kept under an id.
    pub(crate) fn get(&self, id: &ChildId) -> Option<&'a Entry>
        ensures { option_copied result ≡ lookup (bytes_eq id.now) (remaining_kept self.now.list.now self.now.ended) }
    {
        match self.ended {
            Some(ended) => self.list.get_other(ended, id),
            None => self.list.get(id),
        }
    }

    // An id is kept once.
    pub(crate) fn once(&self)
        ensures { IsDistinct bytes_eq (keys_of (remaining_kept self.now.list.now self.now.ended)) }
    {
        self.list.once();
    }

    // Adds the stops of what is kept under these ids, the oldest first: one pass over all that is kept.
    pub(crate) fn push_stops(
        &self,
        alloc: Global,
        stops: &mut Vec<Effect>,
        ids: &[ChildId],
    ) -> Result<(), AllocError>
        requires { TextsRise ids.now }
        ensures { OnOk result (stops.new.items ≡ stops.old.items ++ map stop (under (remaining_kept self.now.list.now self.now.ended) ids.now)) }
    {
        match self.ended {
            Some(ended) => push_other_stops(alloc, stops, self.list, ended, ids),
            None => push_stops(alloc, stops, self.list, ids),
        }
    }
}

// Adds the stops of what is kept under these ids.
fn push_stops(
    alloc: Global,
    stops: &mut Vec<Effect>,
    kept: &KeptList,
    ids: &[ChildId],
) -> Result<(), AllocError>
    requires { TextsRise ids.now }
    ensures { OnOk result (stops.new.items ≡ stops.old.items ++ map stop (under kept.now ids.now)) }
{
    for (id, entry) in kept {
        if is_among(ids, id) {
            stops.push(stop(alloc, id, entry)?)?;
        }
    }
    Ok(())
}

// The same but for one child.
fn push_other_stops(
    alloc: Global,
    stops: &mut Vec<Effect>,
    kept: &KeptList,
    ended: &ChildId,
    ids: &[ChildId],
) -> Result<(), AllocError>
    requires { TextsRise ids.now }
    ensures { OnOk result (stops.new.items ≡ stops.old.items ++ map stop (under (others kept.now ended.now) ids.now)) }
{
    for (id, entry) in kept {
        if ended != id && is_among(ids, id) {
            stops.push(stop(alloc, id, entry)?)?;
        }
    }
    Ok(())
}
