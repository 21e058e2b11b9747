//! Settling: the running nodes exchange all that they know.
ghost use Rattle.std.specs.Prelude.{◌≡◌, ◌≢◌, ◌∷◌, [], None, true, false, map, IfErr, IfOk, IsPermutation, IsSorted};
ghost use Rattle.std.specs.List.{AllZip};
ghost use Rattle.sup_specs.specs.Values.{text_cmp};
ghost use Rattle.sup_model.specs.Worlds.{ModelWorld as Model};
ghost use Rattle.sup_world.specs.CarriedSteps.{carried, has_bytes, lets_save, KnowsBytes};
ghost use Rattle.sup_world.specs.Exchanges.{MakesStep, ShipsState, MessageComes, ExchangesPairs, ends, running};
ghost use Rattle.sup_world.specs.FollowedSteps.{StandsFor};
ghost use Rattle.sup_world.specs.SeenNodes.{sites_of, FailedNoMore};
ghost use Rattle.sup_world.specs.Pairs.{arrival};
ghost use Rattle.sup_world.specs.Settlements.{MakesOne, ShipsOne, MakesPairs, SettlesBy};
ghost use Rattle.sup_world.specs.SettledSites.{SettlesTo};

use crate::settled::Settled;
use crate::state::World;
use crate::tally::Tally;
use std::alloc::AllocError;
use sup_model::Step;
use sup_placement::Weigh;
use sup_replica::{Act, Event, Refusal};
use sup_specs::NodeName;

/// Whether the others ship to the first, or the first to the others.
#[derive(Clone, Copy)]
pub(crate) enum Way {
    In,
    Out,
}

impl<W: Weigh> World<W> {
    /// Has the running nodes exchange all that they know, in the order of their names: each of the others ships to the first,
    /// then the first to each of the others; each message comes and is acknowledged at once. No save fails, and a ship that is
    /// up to date is passed over. Then each of them has absorbed all that any of them had. What is told is that of these steps,
    /// which are the world's own, and so lead on as any steps do.
    ///
    /// # Errors
    ///
    /// As the first step that is refused, but for a ship that is passed over; `OutOfMemory` too where there is none for the
    /// names or to note an answer. The steps so far stay made.
    pub fn settle(&mut self) -> Result<Settled, Refusal>
        ensures follows { (model : Model) → StandsFor W.weight_of (sites_of self.old) model
            → SettlesTo W.weight_of model result (sites_of self.new) }
        ensures steps { SettlesBy W.weight_of (sites_of self.old) result (sites_of self.new) }
        ensures counted { AllZip FailedNoMore (sites_of self.old) (sites_of self.new) }
    {
        let names = self.up_names()?;
        let mut tally = Tally::new(self.alloc);
        if let Some((first, others)) = names.split_first() {
            self.pass(first, others, Way::In, &mut tally)?;
            self.pass(first, others, Way::Out, &mut tally)?;
        }
        Ok(tally.settled())
    }

    // The first node exchanges with each of the others.
    fn pass(
        &mut self,
        first: &NodeName,
        others: &[NodeName],
        way: Way,
        tally: &mut Tally,
    ) -> Result<(), Refusal>
        ensures goes { (model : Model) → StandsFor W.weight_of (sites_of self.old) model
            → ExchangesPairs W.weight_of model (map (ends way first.now) others.now) tally.old result tally.new (sites_of self.new) }
        ensures steps { MakesPairs W.weight_of (sites_of self.old) (map (ends way first.now) others.now)
            tally.old result tally.new (sites_of self.new) }
        ensures counted { AllZip FailedNoMore (sites_of self.old) (sites_of self.new) }
    {
        for other in others {
            match way {
                Way::In => self.exchange(other, first, tally)?,
                Way::Out => self.exchange(first, other, tally)?,
            }
        }
        Ok(())
    }

    // One ships to the other, which acknowledges.
    fn exchange(&mut self, from: &NodeName, to: &NodeName, tally: &mut Tally) -> Result<(), Refusal>
        ensures goes { (model : Model) → StandsFor W.weight_of (sites_of self.old) model
            → ExchangesPairs W.weight_of model ((from.now, to.now) ∷ []) tally.old result tally.new (sites_of self.new) }
        ensures steps { MakesPairs W.weight_of (sites_of self.old) ((from.now, to.now) ∷ []) tally.old result tally.new (sites_of self.new) }
        ensures counted { AllZip FailedNoMore (sites_of self.old) (sites_of self.new) }
    {
        let Some(shipped) = self.ship(from, to, tally)? else {
            return Ok(());
        };
        let Some(acknowledged) = self.bring(from, shipped, tally)? else {
            return Ok(());
        };
        self.bring(to, acknowledged, tally)?;
        Ok(())
    }

    // One ships to the other, unless that is up to date: the number of the message.
    fn ship(
        &mut self,
        from: &NodeName,
        to: &NodeName,
        tally: &mut Tally,
    ) -> Result<Option<u64>, Refusal>
        ensures ships { (model : Model) → StandsFor W.weight_of (sites_of self.old) model
            → ShipsState W.weight_of model from.now to.now tally.old result tally.new (sites_of self.new) }
        ensures steps { ShipsOne W.weight_of (sites_of self.old) from.now to.now tally.old result tally.new (sites_of self.new) }
        ensures counted { AllZip FailedNoMore (sites_of self.old) (sites_of self.new) }
    {
        let step = Step::Node {
            at: *from,
            act: Act::Event(Event::Ship(*to)),
            now: 0,
            saves: true,
        };
        match self.make(&step, tally) {
            Ok(number) => Ok(number),
            Err(refusal) => passed_over(refusal),
        }
    }

    // A message comes to its receiver: the number of the answer's message.
    fn bring(
        &mut self,
        from: &NodeName,
        number: u64,
        tally: &mut Tally,
    ) -> Result<Option<u64>, Refusal>
        ensures comes { (model : Model) → StandsFor W.weight_of (sites_of self.old) model
            → MessageComes W.weight_of model from.now number tally.old result tally.new (sites_of self.new) }
        ensures steps { MakesOne W.weight_of (sites_of self.old) (arrival from.now number) tally.old result tally.new (sites_of self.new) }
        ensures counted { AllZip FailedNoMore (sites_of self.old) (sites_of self.new) }
    {
        let step = Step::Deliver {
            from: *from,
            k: number,
            at: None,
            drop: 0,
            now: 0,
            saves: true,
        };
        self.make(&step, tally)
    }

    // Makes a step, and notes its answer.
    fn make(&mut self, step: &Step, tally: &mut Tally) -> Result<Option<u64>, Refusal>
        requires bytes { has_bytes step.now ≡ false }
        requires saves { lets_save step.now ≡ true }
        ensures makes { (model : Model) → StandsFor W.weight_of (sites_of self.old) model → KnowsBytes model.is_message step.now
            → MakesStep W.weight_of model (carried (sites_of self.old) step.now) tally.old result tally.new (sites_of self.new) }
        ensures steps { MakesOne W.weight_of (sites_of self.old) step.now tally.old result tally.new (sites_of self.new) }
        ensures counted { AllZip FailedNoMore (sites_of self.old) (sites_of self.new) }
    {
        let answer = self.step(step)?;
        tally.take(answer)
    }

    // The names of the running nodes, in their order.
    fn up_names(&self) -> Result<Vec<NodeName>, AllocError>
        ensures sorted { IfOk result (λ names. IsSorted text_cmp names.items) }
        ensures all { IfOk result (λ names. IsPermutation (running (sites_of self.now)) names.items) }
    {
        let mut names = self.running()?;
        names.sort()?;
        Ok(names)
    }

    // The names of the running nodes, in the world's order.
    fn running(&self) -> Result<Vec<NodeName>, AllocError>
        ensures { IfOk result (λ names. names.items ≡ running (sites_of self.now)) }
    {
        let mut names = Vec::new(self.alloc);
        for site in &self.sites {
            if site.station.node().is_some() {
                names.push(site.name)?;
            }
        }
        Ok(names)
    }
}

// A ship that is up to date is passed over.
fn passed_over(refusal: Refusal) -> Result<Option<u64>, Refusal>
    ensures passed { IfOk result (λ number. (number ≡ None) × (refusal ≡ Refusal.UpToDate)) }
    ensures refused { IfErr result (λ r. (r ≡ refusal) × (r ≢ Refusal.UpToDate)) }
{
    match refusal {
        Refusal::UpToDate => Ok(None),
        _ => Err(refusal),
    }
}
