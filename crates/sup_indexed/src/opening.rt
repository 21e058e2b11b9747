//! Maps that are opened for what is planned: all room is taken, so what follows can't be refused. Of two maps the first
//! can be given up where the second is refused.

ghost use Rattle.std.specs.Prelude.{◌≡◌, None, IfOk, IfErr, OnOk};
ghost use Rattle.std.specs.BTreeMap.{get};
ghost use Rattle.sup_indexed.specs.Changed.{IsReady, HaveSameValues, IsCarriedOut, IsSamePlan};

use crate::changing::Changing;
use crate::indexed_map::IndexedMap;
use crate::planning::PlannedMap;
use std::alloc::{AllocError, Global};
use std::collections::BTreeMap;
use sup_dot_store::DotFun;
use sup_specs::Plain;

/// A map, and the functions that it gets.
#[derive(Drop)]
pub struct ReadyMap<K: Plain, V: Plain> {
    changing: Changing<K, V>,
    pub ghost ready: { IsReady K.cmp changing.stores changing.index changing.changed },
}

impl<K: Plain, V: Plain> IndexedMap<K, V> {
    ghost use Rattle.sup_indexed.specs.Contents.{functions_of, functions_before, functions_to_be, functions_planned};

    /// Takes all room that a plan needs, whichever map it was made for. An `Err` is want of memory, and gives a map of the
    /// same rows back.
    pub fn open_for(self, alloc: Global, plan: PlannedMap<K, V>) -> Result<ReadyMap<K, V>, Self>
        ensures planned { IfOk result (λ r. IsSamePlan K.cmp (functions_to_be r) (functions_before r) (functions_planned plan) (functions_of self)) }
        ensures same { IfOk result (λ r. HaveSameValues K.cmp (functions_before r) (functions_of self)) }
        ensures err { IfErr result (λ m. HaveSameValues K.cmp (functions_of m) (functions_of self)) }
    {
        let mut changing = match Changing::of(self) {
            Ok(changing) => changing,
            Err(map) => return Err(map),
        };
        match change_planned(alloc, &mut changing, plan.changed) {
            Ok(()) => Ok(ReadyMap { changing }),
            Err(_) => Err(changing.given_up()),
        }
    }

    /// The map with the functions changed. It takes no memory.
    pub fn carry_out(ready: ReadyMap<K, V>) -> Self
        ensures { IsCarriedOut K.cmp (functions_to_be ready) (functions_before ready) (functions_of result) }
    {
        ready.changing.carried_out()
    }

    /// A map of the rows as they were. It takes no memory.
    pub fn give_up(ready: ReadyMap<K, V>) -> Self
        ensures { HaveSameValues K.cmp (functions_of result) (functions_before ready) }
    {
        ready.changing.given_up()
    }
}

// Has all functions that are planned changed. An `Err` is want of memory, and leaves no value changed.
fn change_planned<K: Plain, V: Plain>(
    alloc: Global,
    changing: &mut Changing<K, V>,
    planned: BTreeMap<K, DotFun<V>>,
) -> Result<(), AllocError>
    requires none { (k : K) → get K.cmp changing.old.changed k ≡ None }
    requires ready { IsReady K.cmp changing.old.stores changing.old.index changing.old.changed }
    ensures same { HaveSameValues K.cmp changing.new.stores changing.old.stores }
    ensures changed { OnOk result ((k : K) → get K.cmp changing.new.changed k ≡ get K.cmp planned k) }
    ensures ready { OnOk result (IsReady K.cmp changing.new.stores changing.new.index changing.new.changed) }
{
    let mut left = planned;
    while let Some((key, function)) = left.pop_first() {
        changing.change(alloc, key, function)?;
    }
    Ok(())
}
