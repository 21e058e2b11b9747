//! Short values, lent one by one.

ghost use Rattle.std.specs.Prelude.{◌≡◌, drop, length};
ghost use Rattle.std.specs.Iterator.{at_most};
ghost use Rattle.std.specs.Map.{keys_of};
ghost use Rattle.std.specs.Map.Iter.{TakesFirst, deref, deref_pair};
ghost use Rattle.std.specs.Option.{option_copied};
ghost use Rattle.sup_causal.specs.Walk.{past_told};

use std::marker::Model;
use sup_causal::Dot;

/// The values that are still to come, each with its dot.
#[derive(Drop)]
pub struct Entries<'a, V> {
    rest: &'a [(Dot, V)],
}

impl<'a, V> Model for Entries<'a, V> {
    ghost use Rattle.std.specs.Prelude.{List};
    ghost use Rattle.sup_causal.specs.declared.dot.Dot.{Dot as DotValue};

    ghost Value = { List (DotValue × V) };

    ghost view = { λ a. a.rest.now };
}

impl<'a, V> Entries<'a, V> {
    pub(crate) fn new(rest: &'a [(Dot, V)]) -> Entries<'a, V>
        ensures { result ≡ rest.now }
    {
        Entries { rest }
    }

    // The next one, if there is one.
    pub(crate) fn peek(&self) -> Option<(&'a Dot, &'a V)>
        ensures { TakesFirst deref_pair self.now result (drop 1 self.now) }
    {
        let rest = self.rest;
        if rest.is_empty() {
            return None;
        }
        let entry = &rest[0];
        Some((&entry.0, &entry.1))
    }

    // Goes past the next one where `told` is its value; None leaves it the next.
    pub(crate) fn go_past(&mut self, told: Option<&'a V>)
        ensures { self.new ≡ past_told (option_copied told.entry) self.old }
    {
        if told.is_some() {
            self.advance();
        }
    }

    // Goes on to the one after it.
    fn advance(&mut self)
        ensures { self.new ≡ drop 1 self.old }
    {
        let rest = self.rest;
        if !rest.is_empty() {
            self.rest = &rest[1..];
        }
    }
}

impl<'a, V> Iterator for Entries<'a, V> {
    type Item = (&'a Dot, &'a V);

    ghost next_gives = { TakesFirst deref_pair };

    ghost remaining = { λ s. at_most (length s) };

    fn next(&mut self) -> Option<(&'a Dot, &'a V)> {
        let entry = self.peek();
        self.advance();
        entry
    }
}

/// The dots that are still to come.
#[derive(Drop)]
pub struct Dots<'a, V> {
    entries: Entries<'a, V>,
}

impl<'a, V> Model for Dots<'a, V> {
    ghost use Rattle.std.specs.Prelude.{List};
    ghost use Rattle.std.specs.Map.{keys_of};
    ghost use Rattle.sup_causal.specs.declared.dot.Dot.{Dot as DotValue};

    ghost Value = { List DotValue };

    ghost view = { λ a. keys_of a.entries };
}

impl<'a, V> Dots<'a, V> {
    pub(crate) fn new(rest: &'a [(Dot, V)]) -> Dots<'a, V>
        ensures { result ≡ keys_of rest.now }
    {
        Dots {
            entries: Entries::new(rest),
        }
    }
}

impl<'a, V> Iterator for Dots<'a, V> {
    type Item = &'a Dot;

    ghost next_gives = { TakesFirst deref };

    ghost remaining = { λ s. at_most (length s) };

    fn next(&mut self) -> Option<&'a Dot> {
        match self.entries.next() {
            Some((dot, _)) => Some(dot),
            None => None,
        }
    }
}
