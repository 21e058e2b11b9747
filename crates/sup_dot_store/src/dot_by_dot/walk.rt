//! A walk over the dots of two functions.

ghost use Rattle.std.proofs.Props.{props};
ghost use Rattle.std.specs.Prelude.{◌≡◌, ◌+◌, length, [], MatchOption};
ghost use Rattle.std.specs.Iterator.{at_most};
ghost use Rattle.std.specs.Option.{option_copied};
ghost use Rattle.sup_causal.specs.Dots.{dot_cmp};
ghost use Rattle.sup_causal.specs.Walk.{KeysRise, IsLeastKey};

use crate::short_values::ShortValues;
use crate::short_values::entries::Entries;
use sup_causal::{Dot, lesser_key};

// The dots of two functions in rising order, each once, with the values that the functions have there.
#[derive(Drop)]
pub(crate) struct DotByDot<'a, V> {
    left: Entries<'a, V>,
    right: Entries<'a, V>,
    pub ghost left_rises: { KeysRise dot_cmp left } by { Prim.hlevel props },
    pub ghost right_rises: { KeysRise dot_cmp right } by { Prim.hlevel props },
}

impl<'a, V> DotByDot<'a, V> {
    pub(crate) fn new(left: &'a ShortValues<V>, right: &'a ShortValues<V>) -> Self
        ensures left { result.left ≡ left.now.entries }
        ensures right { result.right ≡ right.now.entries }
    {
        // For their clause alone: the dots rise.
        left.rise();
        right.rise();
        DotByDot {
            left: left.iter(),
            right: right.iter(),
        }
    }
}

impl<'a, V> Iterator for DotByDot<'a, V> {
    type Item = (&'a Dot, Option<&'a V>, Option<&'a V>);

    ghost next_gives = { λ s r t. MatchOption r ((s.left ≡ []) × (s.right ≡ [])) (λ x. IsLeastKey dot_cmp x.0.now (option_copied x.1) (option_copied x.2) s.left s.right t.left t.right) };

    ghost remaining = { λ s. at_most (length s.left + length s.right) };

    fn next(&mut self) -> Option<(&'a Dot, Option<&'a V>, Option<&'a V>)> {
        let (dot, left, right) = lesser_key(self.left.peek(), self.right.peek())?;
        self.left.go_past(left);
        self.right.go_past(right);
        Some((dot, left, right))
    }
}
