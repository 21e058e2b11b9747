//! Laws of anti-entropy, each the contract of a function that does nothing, over what the values of any lattice mean.
ghost use Rattle.sup_anti_entropy.specs.Joins.{HoldsForJoin};
ghost use Rattle.sup_anti_entropy.specs.Promises.{ShipsAreRight, StepsKeepSound, SettlingSettles};

use sup_causal::Lattice;

/// Of peers that are sound: where nothing is missing the receiver has all; the deltas that it hasn't acknowledged, where all
/// of these are held, give it all, and nothing else, and so does the whole state.
pub fn ships_are_right<L: Lattice>()
    ensures { HoldsForJoin L.join ShipsAreRight }
{}

/// Whatever one peer does keeps what is true between all peers: a counted change, a ship, a push, an acknowledgement that it
/// sends or hears, a stop and a restart. An acknowledgement is sent to, or heard of, the only peer of its name.
pub fn steps_keep_sound<L: Lattice>()
    ensures { HoldsForJoin L.join StepsKeepSound }
{}

/// After all have gone to the first, and the first to all, each has just what all had.
pub fn settling_settles<L: Lattice>()
    ensures { HoldsForJoin L.join SettlingSettles }
{}
