//! What follows of a verdict.
ghost use Rattle.sup_clustering.specs.OneVerdict.{PrintsOneText, PrintsUnlessWanting, RefusesAlike};

/// The verdict over histories is one, in whichever order they are judged: want of memory may stand in its place, and of several nodes
/// that differ any may be named, each in one place.
pub fn a_verdict_is_one()
    ensures text { PrintsOneText }
    ensures unless { PrintsUnlessWanting }
    ensures refusal { RefusesAlike }
{}
