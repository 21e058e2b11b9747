//! Values by dot in a short vector, which has room for what it holds and little more. Nothing else looks inside.

ghost use Rattle.std.specs.Prelude.{◌≡◌, ◌+◌, ◌↔◌, cond, [], ◌∷◌, Some, None, IsSome, IsTrue, IfOk, IfSome, IfNone, OnOk, OnErr, length, reverse, slice_get};
ghost use Rattle.std.specs.Option.{option_copied};
ghost use Rattle.std.specs.List.Sorted.{IsStrictlySortedBy, IsSearchInRange, IsBinarySearchResult};
ghost use Rattle.std.specs.Map.{keys_of};
ghost use Rattle.sup_causal.specs.declared.dot.Dot.{Dot as DotValue};
ghost use Rattle.sup_causal.specs.Dots.{dot_cmp, dot_eq};
ghost use Rattle.sup_dot_store.specs.ByDot.{at_dot, DotsRise};

pub mod entries;

use crate::short_values::entries::{Dots, Entries};
use std::alloc::{AllocError, Global};
use std::marker::Model;
use sup_causal::Dot;

/// Values under dots. A dot has at most one.
#[derive(Drop)]
pub struct ShortValues<V> {
    items: Vec<(Dot, V)>,
}

impl<V> Model for ShortValues<V> {
    ghost use Rattle.std.specs.Map.{keys_of};
    ghost use Rattle.std.specs.List.Sorted.{IsStrictlySortedBy};
    ghost use Rattle.sup_causal.specs.Dots.{dot_cmp};
    ghost use Rattle.sup_dot_store.specs.ByDot.{ByDot};

    ghost Value = { ByDot V };

    ghost view = { λ a. record { entries = a.items.items } };

    ghost invariant = { λ a. IsStrictlySortedBy dot_cmp (keys_of a.items.items) };
}

impl<V> ShortValues<V> {
    // No values.
    pub(crate) fn new(alloc: Global) -> Self
        ensures { result.entries ≡ [] }
    {
        ShortValues {
            items: Vec::new(alloc),
        }
    }

    // No values yet, and room for some.
    pub(crate) fn with_room(alloc: Global, room: usize) -> Result<Self, AllocError>
        ensures { IfOk result (λ m. m.entries ≡ []) }
    {
        let items = Vec::with_capacity(alloc, room)?;
        Ok(ShortValues { items })
    }

    // These values, whose dots fall.
    pub(crate) fn of_falling(mut items: Vec<(Dot, V)>) -> Self
        requires { IsStrictlySortedBy dot_cmp (keys_of (reverse items.items)) }
        ensures { result.entries ≡ reverse items.items }
    {
        items.reverse();
        items.shrink_to_fit();
        ShortValues { items }
    }

    // For its clause alone: the dots rise.
    pub(crate) fn rise(&self)
        ensures { DotsRise self.now }
    {
        let _items = &self.items;
    }

    /// Whether there is none.
    pub fn is_empty(&self) -> bool
        ensures { IsTrue result ↔ (length self.now.entries ≡ 0) }
    {
        self.items.is_empty()
    }

    /// How many there are.
    pub fn len(&self) -> usize
        ensures { result ≡ length self.now.entries }
    {
        self.items.len()
    }

    /// The value of a dot.
    pub fn get(&self, dot: &Dot) -> Option<&V>
        ensures { option_copied result ≡ at_dot self.now dot.now }
    {
        match place_in(&self.items, dot) {
            Ok(at) => Some(&self.items[at].1),
            Err(_) => None,
        }
    }

    /// The least dot and its value.
    pub fn first(&self) -> Option<(&Dot, &V)>
        ensures some { IfSome result (λ e. slice_get self.now.entries 0 ≡ Some (e.0.now, e.1.now)) }
        ensures none { IfNone result (self.now.entries ≡ []) }
    {
        self.iter().peek()
    }

    /// The values, each with its dot, by dot.
    pub fn iter(&self) -> Entries<'_, V>
        ensures { result ≡ self.now.entries }
    {
        Entries::new(&self.items)
    }

    /// The dots, in rising order.
    pub fn dots(&self) -> Dots<'_, V>
        ensures { result ≡ keys_of self.now.entries }
    {
        Dots::new(&self.items)
    }

    // Gives back the room that is not used.
    pub(crate) fn shrink(&mut self)
        ensures { self.new ≡ self.old }
    {
        self.items.shrink_to_fit();
    }
}

impl<V: Drop> ShortValues<V> {
    // One value, and room for no other.
    pub(crate) fn single(alloc: Global, dot: Dot, value: V) -> Result<Self, AllocError>
        ensures { IfOk result (λ m. m.entries ≡ (dot, value) ∷ []) }
    {
        let mut items = Vec::with_capacity(alloc, 1)?;
        items.push((dot, value))?;
        Ok(ShortValues { items })
    }

    // Puts a value at a dot that has none. Asks for room for this one alone. An `Err` changes nothing.
    pub(crate) fn put(&mut self, dot: Dot, value: V) -> Result<(), AllocError>
        requires { at_dot self.old dot ≡ None }
        ensures put { OnOk result ((d : DotValue) → at_dot self.new d ≡ cond (dot_eq dot d) (Some value) (at_dot self.old d)) }
        ensures count { OnOk result (length self.new.entries ≡ length self.old.entries + 1) }
        ensures err { OnErr result (self.new.entries ≡ self.old.entries) }
        ensures ordered { DotsRise self.new }
    {
        // The dot has no value, and so stands nowhere.
        let Err(at) = place_in(&self.items, &dot) else {
            return Ok(());
        };
        self.items.reserve_exact(1)?;
        self.items.insert(at, (dot, value))?;
        Ok(())
    }

    // Takes the value of a dot away, if it has one.
    pub(crate) fn take(&mut self, dot: &Dot)
        ensures taken { (d : DotValue) → at_dot self.new d ≡ cond (dot_eq dot.now d) None (at_dot self.old d) }
        ensures count { IsSome (at_dot self.old dot.now) → length self.new.entries + 1 ≡ length self.old.entries }
        ensures ordered { DotsRise self.new }
    {
        if let Ok(at) = place_in(&self.items, dot) {
            self.items.remove(at);
        }
    }
}

impl<'a, V> IntoIterator for &'a ShortValues<V> {
    type Item = (&'a Dot, &'a V);

    type IntoIter = Entries<'a, V>;

    ghost into_iter_gives = { λ m r. r ≡ m.now.entries };

    fn into_iter(self) -> Entries<'a, V> {
        self.iter()
    }
}

// Where a dot stands, or, if nowhere, where it is to stand.
fn place_in<V>(items: &[(Dot, V)], dot: &Dot) -> Result<usize, usize>
    ensures bound { IsSearchInRange result (length items.now) }
    ensures position { IsBinarySearchResult (λ e. dot_cmp e.0 dot.now) items.now result }
{
    items.binary_search_by(|item| item.0.cmp(dot))
}
