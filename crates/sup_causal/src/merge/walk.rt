//! A walk over the keys of two maps.

ghost use Rattle.std.proofs.Props.{props};
ghost use Rattle.std.specs.Prelude.{◌≡◌, ◌+◌, length, [], MatchOption};
ghost use Rattle.std.specs.Iterator.{at_most};
ghost use Rattle.std.specs.Map.Iter.{deref_pair};
ghost use Rattle.std.specs.Option.{option_copied, option_map};
ghost use Rattle.sup_causal.specs.Walk.{KeysRise, IsLeastKey, GivesLesserKey};

use super::peeked::Peeked;
use std::cmp::Ordering;
use std::collections::BTreeMap;
use sup_specs::Plain;

/// The keys of two maps in rising order, each once, with what the maps have there. One pass over both.
#[derive(Drop)]
pub struct KeyByKey<'a, K: Plain, V> {
    pub left: Peeked<'a, K, V>,
    pub right: Peeked<'a, K, V>,
    pub ghost left_rises: { KeysRise K.cmp left } by { Prim.hlevel props },
    pub ghost right_rises: { KeysRise K.cmp right } by { Prim.hlevel props },
}

impl<'a, K: Plain, V> KeyByKey<'a, K, V> {
    /// A walk over all keys.
    pub fn new(left: &'a BTreeMap<K, V>, right: &'a BTreeMap<K, V>) -> Self
        ensures left { result.left ≡ left.now.entries }
        ensures right { result.right ≡ right.now.entries }
    {
        KeyByKey {
            left: Peeked::new(left.iter()),
            right: Peeked::new(right.iter()),
        }
    }
}

impl<'a, K: Plain, V> Iterator for KeyByKey<'a, K, V> {
    type Item = (&'a K, Option<&'a V>, Option<&'a V>);

    ghost next_gives = { λ s r t. MatchOption r ((s.left ≡ []) × (s.right ≡ [])) (λ x. IsLeastKey K.cmp x.0.now (option_copied x.1) (option_copied x.2) s.left s.right t.left t.right) };

    ghost remaining = { λ s. at_most (length s.left + length s.right) };

    fn next(&mut self) -> Option<(&'a K, Option<&'a V>, Option<&'a V>)> {
        let (key, left, right) = lesser_key(self.left.peek(), self.right.peek())?;
        self.left.go_past(left);
        self.right.go_past(right);
        Some((key, left, right))
    }
}

/// The lesser key of the first entries of two lists, with the values that stand under it there. None where both lists
/// are at their end.
pub fn lesser_key<'a, K: Plain, V>(
    left: Option<(&'a K, &'a V)>,
    right: Option<(&'a K, &'a V)>,
) -> Option<(&'a K, Option<&'a V>, Option<&'a V>)>
    ensures { GivesLesserKey K.cmp (option_map deref_pair left.entry) (option_map deref_pair right.entry) result }
{
    match (left, right) {
        (None, None) => None,
        (Some((key, value)), None) => Some((key, Some(value), None)),
        (None, Some((key, value))) => Some((key, None, Some(value))),
        (Some((key, value)), Some((other, another))) => match key.cmp(other) {
            Ordering::Less => Some((key, Some(value), None)),
            Ordering::Equal => Some((key, Some(value), Some(another))),
            Ordering::Greater => Some((other, None, Some(another))),
        },
    }
}
