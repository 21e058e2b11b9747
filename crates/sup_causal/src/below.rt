//! Two maps compared key by key.

ghost use Rattle.std.specs.Prelude.{◌≡◌, ◌↔◌, Option, IsTrue};
ghost use Rattle.std.specs.Option.{option_copied};
ghost use Rattle.std.specs.BTreeMap.{get};
ghost use Rattle.sup_causal.specs.Merge.{IsBelowAt};

use crate::merge::walk::KeyByKey;
use std::collections::BTreeMap;
use sup_specs::Plain;

/// How what one map has at a key is compared with what another has there.
pub trait Below<K, V> {
    // Holds of a key and what the two maps have there, where they may be compared.
    ghost can_compare: { Self → K → Option V → Option V → Type 0 } = { λ _ _ _ _. Unit {0} };

    // Holds of a key and what the two maps have there, where the first is below the second.
    ghost is_below: { Self → K → Option V → Option V → Type 0 };

    /// Whether what the first map has at the key is below what the second has there.
    fn below<'a>(&self, key: &K, left: Option<&'a V>, right: Option<&'a V>) -> bool
        requires { can_compare self.now key.now (option_copied left) (option_copied right) }
        ensures { IsTrue result ↔ is_below self.now key.now (option_copied left.entry) (option_copied right.entry) };
}

/// Whether the first map is below the second at each key that one of them has.
pub fn all_below<K: Plain, V, M: Below<K, V>>(
    left: &BTreeMap<K, V>,
    right: &BTreeMap<K, V>,
    by: &M,
) -> bool
    requires { (q : K) → M.can_compare by.now q (get K.cmp left.now q) (get K.cmp right.now q) }
    ensures { IsTrue result ↔ ((q : K) → IsBelowAt (M.is_below by.now q) (get K.cmp left.now q) (get K.cmp right.now q)) }
{
    for (key, left_value, right_value) in KeyByKey::new(left, right) {
        if !by.below(key, left_value, right_value) {
            return false;
        }
    }
    true
}
