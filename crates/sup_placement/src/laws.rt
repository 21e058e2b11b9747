//! Laws of placement, of any weigher.
ghost use Rattle.sup_placement.specs.Moves.{AnswersThePlace, NowhereWithoutMembers, OnePlace, OrderAndRepeatsAreFree, OnlyItsOwnMove, MovesOnlyToIt};

/// A child has one place wherever there are members: the member of greatest weight, a tie going to
/// the least name.
pub fn a_child_has_one_place()
    ensures answers { AnswersThePlace }
    ensures nowhere { NowhereWithoutMembers }
    ensures one { OnePlace }
{}

/// A child's place doesn't depend on the order or the repeats of the members.
pub fn order_and_repeats_are_free()
    ensures { OrderAndRepeatsAreFree }
{}

/// Few children move: where a member is taken away only its own, and where one is added only to it.
pub fn few_children_move()
    ensures taken_away { OnlyItsOwnMove }
    ensures added { MovesOnlyToIt }
{}
