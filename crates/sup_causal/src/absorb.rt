//! Taking dots into a version vector.

ghost use Rattle.std.specs.Prelude.{◌≡◌, true, IfOk, OnOk};
ghost use Rattle.std.specs.declared.cmp.Ordering.TheVariants.{Less};
ghost use Rattle.sup_specs.specs.Rising.{among};
ghost use Rattle.sup_causal.specs.Cut.{IsCanonical, in_parts};
ghost use Rattle.sup_causal.specs.Dots.{dot_cmp, AddsDot, AddsNoOther, IsCounted, IsKept};
ghost use Rattle.sup_causal.specs.Parts.{IsVersions};

use crate::dot::Dot;
use crate::entries::{entry_in, raise};
use std::alloc::{AllocError, Global};
use sup_specs::NodeName;

// Takes rising dots into the vector, and gives back those that are left over: the cloud. Counters rise along the list,
// so no later dot goes on with a run that an earlier one is apart from. Where memory is refused some may be in.
#[tactic(auto, using(crate::proofs::Cuts::without_cloud))]
pub(crate) fn absorb(
    alloc: Global,
    vector: &mut Vec<(NodeName, u64)>,
    dots: &[Dot],
) -> Result<Vec<Dot>, AllocError>
    requires vector { IsVersions vector.old.items }
    requires dots { IsKept dots.now }
    ensures canonical { IfOk result (λ cloud. IsCanonical vector.new.items cloud.items) }
    ensures dots { IfOk result (λ cloud. (d : Dot) → in_parts vector.new.items cloud.items d ≡ in_parts vector.old.items dots.now d) }
{
    let mut cloud = Vec::new(alloc);
    for dot in dots {
        take_in(vector, &mut cloud, dot)?;
    }
    Ok(cloud)
}

// Takes in a dot above all dots of the cloud.
fn take_in(
    vector: &mut Vec<(NodeName, u64)>,
    cloud: &mut Vec<Dot>,
    dot: &Dot,
) -> Result<(), AllocError>
    requires canonical { IsCanonical vector.old.items cloud.old.items }
    requires counted { IsCounted dot.now }
    requires last { (d : Dot) → among dot_cmp cloud.old.items d ≡ true → dot_cmp d dot.now ≡ Less }
    ensures canonical { OnOk result (IsCanonical vector.new.items cloud.new.items) }
    ensures dots { OnOk result (AddsDot dot.now (in_parts vector.old.items cloud.old.items) (in_parts vector.new.items cloud.new.items)) }
    ensures below { OnOk result (AddsNoOther dot.now (among dot_cmp cloud.old.items) (among dot_cmp cloud.new.items)) }
{
    let entry = entry_in(vector, &dot.node);
    if dot.counter <= entry {
        return Ok(());
    }
    if dot.counter == entry + 1 {
        return Ok(raise(vector, dot.node, dot.counter)?);
    }
    Ok(cloud.push(*dot)?)
}
