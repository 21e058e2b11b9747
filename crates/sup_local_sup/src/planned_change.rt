//! A change of what is kept under a few ids, made ready.
ghost use Rattle.std.specs.Prelude.{◌≡◌, []};

use crate::effect::{Effect, Effects};
use crate::kept_entry::KeptEntry;
use std::collections::LinkedList;
use std::marker::Model;
use sup_specs::ChildId;

/// A change of what is kept under a few ids, made ready: it has all the memory that it wants, and borrows nothing. A
/// contract sees it as a record.
#[derive(Drop)]
pub struct PlannedChange {
    // Whose run has ended: it goes with no stop.
    pub(crate) ended: Option<ChildId>,
    // The ids whose kept entries go, or that come anew.
    pub(crate) out: Vec<ChildId>,
    // Whether more than one kept entry goes.
    pub(crate) several: bool,
    pub(crate) fresh: LinkedList<(ChildId, KeptEntry)>,
    pub(crate) effects: Vec<Effect>,
}

impl Model for PlannedChange {
    ghost use Rattle.std.specs.Prelude.{◌≡◌, true};
    ghost use Rattle.std.specs.Str.{bytes_eq};
    ghost use Rattle.std.specs.Map.{keys_of};
    ghost use Rattle.std.specs.List.{AllByRecursion, IsDistinct};
    ghost use Rattle.sup_local_sup.specs.Changing.{Planned, is_among, TextsRise};
    ghost use Rattle.sup_local_sup.specs.Keeping.{KeepsCounted};

    ghost Value = { Planned };

    ghost view = { λ p. record { ended = p.ended; out = p.out.items; fresh = p.fresh; effects = p.effects.items } };

    ghost invariant = { λ p. IsDistinct bytes_eq (keys_of p.fresh) × AllByRecursion (λ k. is_among p.out.items k ≡ true) p.fresh × TextsRise p.out.items × KeepsCounted p.fresh };
}

impl PlannedChange {
    /// The plan without its effects, and the effects.
    pub fn parted(self) -> (PlannedChange, Effects)
        ensures plan { result.0 ≡ record self { effects = [] } }
        ensures effects { result.1 ≡ self.effects }
    {
        let PlannedChange {
            ended,
            out,
            several,
            fresh,
            effects,
        } = self;
        let none = Vec::new(*effects.allocator());
        let plan = PlannedChange {
            ended,
            out,
            several,
            fresh,
            effects: none,
        };
        (plan, Effects::new(effects))
    }
}
