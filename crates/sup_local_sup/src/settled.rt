//! The map of what is kept.
ghost use Rattle.std.specs.Prelude.{◌≡◌, not};
ghost use Rattle.std.specs.Str.{bytes_eq};
ghost use Rattle.std.specs.List.{list_any};
ghost use Rattle.std.specs.Map.{lookup};
ghost use Rattle.sup_local_sup.specs.Planning.{renewed_in};
ghost use Rattle.sup_local_sup.specs.Changing.{without, is_among, TextsRise};

use crate::effect::Incarnation;
use crate::kept_entry::KeptEntry;
use indexmap::IndexMap;
use sup_specs::ChildId;

// Whether an id is one of these.
pub(crate) fn is_among(ids: &[ChildId], id: &ChildId) -> bool
    requires { TextsRise ids.now }
    ensures { result ≡ list_any (bytes_eq id.now) ids.now }
{
    match ids.binary_search_by(|other| other.cmp(id)) {
        Ok(_) => true,
        Err(_) => false,
    }
}

// Lets go what is kept under these ids, in one pass.
pub(crate) fn keep_none_of(kept: &mut IndexMap<ChildId, KeptEntry>, ids: &[ChildId])
    requires { TextsRise ids.now }
    ensures { kept.new.entries ≡ without kept.old.entries ids.now }
{
    kept.retain(
        |id: &ChildId, entry: &mut KeptEntry| -> bool
            requires { TextsRise ids.now }
            ensures { (result ≡ not (is_among ids.entry.now (id.now, entry.old))) × (entry.new ≡ entry.old) }
        { !is_among(ids, id) },
    );
}

// Puts another run in the place of a child's last one, where it is kept.
pub(crate) fn renew_settled(kept: &mut IndexMap<ChildId, KeptEntry>, id: &ChildId, inc: Incarnation)
    ensures { kept.new.entries ≡ renewed_in kept.old.entries id.now inc (lookup (bytes_eq id.now) kept.old.entries) }
{
    if let Some(entry) = kept.get_mut(id) {
        entry.renew(inc);
    }
}
