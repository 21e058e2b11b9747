//! A node.
ghost use Rattle.std.specs.Prelude.{◌≡◌, true, IfOk, IsErr, OnOk, OnErr, MatchResult};
ghost use Rattle.sup_wire.specs.RowTexts.{AreRows};
ghost use Rattle.sup_node.specs.NodeStates.{station_in};
ghost use Rattle.sup_node.specs.Placed.{keeps_placed};

use crate::planned::Planned;
use crate::state::NodeState;
use std::alloc::{AllocError, Global};
use std::marker::PhantomData;
use sup_array_text::ArrayText;
use sup_local_sup::Effects;
use sup_placement::Weigh;
use sup_replica::{Config, Done, Event, Refusal, Reply};
use sup_specs::NodeName;
use sup_wire::Image;

/// A node that runs. Its type names how children are weighed, since what it keeps depends on it.
#[derive(Drop)]
pub struct Node<W: Weigh> {
    pub(crate) state: NodeState,
    pub(crate) weigher: PhantomData<W>,
    pub ghost keeps: { keeps_placed W.weight_of (station_in state).node ≡ true },
}

impl<W: Weigh> Node<W> {
    ghost use Rattle.sup_node.specs.CarriedChanges.{takes_memory};
    ghost use Rattle.sup_node.specs.Changes.{station_after};
    ghost use Rattle.sup_node.specs.Contents.{station_of};
    ghost use Rattle.sup_node.specs.NodeSteps.{PlansEvent, AnswersEvent, AnswersRestart, IsPlanNow, fresh_station};

    /// The node that is in this state.
    pub fn of(state: NodeState) -> Node<W>
        requires { keeps_placed W.weight_of (station_in state).node ≡ true }
        ensures { station_of result ≡ station_in state }
    {
        Node {
            state,
            weigher: PhantomData,
        }
    }

    /// A node that was just made: in its first boot, with empty tables.
    ///
    /// # Errors
    ///
    /// Refused only for memory.
    pub fn fresh(alloc: Global, name: NodeName, config: Config) -> Result<Node<W>, AllocError>
        ensures { IfOk result (λ n. station_of n ≡ fresh_station name config) }
    {
        let state = NodeState::fresh(alloc, name, config)?;
        Ok(Node::of(state))
    }

    /// The node that goes on from an image, in the next boot, and what it starts.
    ///
    /// # Errors
    ///
    /// `CountSpent` where the next boot, the image's count or an incarnation would pass `MAX`; `OutOfMemory`.
    pub fn from_image(
        alloc: Global,
        image: Image,
        config: Config,
        weigher: &W,
    ) -> Result<(Node<W>, Effects), Refusal>
        ensures { AnswersRestart station_of W.weight_of config image result }
    {
        let (state, effects) = NodeState::from_image(alloc, image, config, weigher)?;
        Ok((Node::of(state), effects))
    }

    /// Makes an event at the moment `now` ready, in the order of checks. Nothing changes.
    ///
    /// # Errors
    ///
    /// The refusal of the first check that fails. `OutOfMemory` may be told of any delivery, and of another event only where no
    /// check fails but that of numbers.
    pub fn plan(&self, event: &Event, now: u64, weigher: &W) -> Result<Planned, Refusal>
        ensures { PlansEvent W.weight_of (station_of self.now) event.now now result }
    {
        self.state.plan(event, now, weigher)
    }

    /// The same as [`Node::plan`], where the texts of the rows that it knows are kept: a ship of all of these copies them.
    ///
    /// # Errors
    ///
    /// As [`Node::plan`] tells.
    pub fn plan_with(
        &self,
        texts: &ArrayText,
        event: &Event,
        now: u64,
        weigher: &W,
    ) -> Result<Planned, Refusal>
        requires { AreRows (station_of self.now).node.known.rows texts.now.items }
        ensures { PlansEvent W.weight_of (station_of self.now) event.now now result }
    {
        match event {
            Event::Ship(to) => self.state.ship_with(texts, to),
            _ => self.state.plan(event, now, weigher),
        }
    }

    /// Carries out what was made ready of an event, with the node as it was then.
    ///
    /// # Errors
    ///
    /// Refused only for memory, and that for an acknowledgement or a change of the tables alone. The node is unchanged then.
    pub fn carry_out(&mut self, planned: Planned) -> Result<Done, AllocError>
        requires { IsPlanNow W.weight_of (station_of self.old) planned }
        ensures done { IfOk result (λ done. done ≡ planned.done) }
        ensures becomes { OnOk result (station_of self.new ≡ station_after (station_of self.old) planned.change) }
        ensures refused { OnErr result (station_of self.new ≡ station_of self.old) }
        ensures only { IsErr result → takes_memory planned.change ≡ true }
    {
        let Planned { done, change } = planned;
        self.state.carry_out(change)?;
        // Where memory for it was refused before, an index is made again.
        if matches!(&done.reply, Reply::Known) {
            self.state.index_rows();
        }
        Ok(done)
    }

    /// One event at the moment `now`. It saves nothing.
    ///
    /// # Errors
    ///
    /// As [`Node::plan`] tells; and `OutOfMemory` as [`Node::carry_out`] tells. The node is unchanged then.
    pub fn step(&mut self, event: Event, now: u64, weigher: &W) -> Result<Done, Refusal>
        ensures { AnswersEvent W.weight_of (station_of self.old) event now result (station_of self.new) }
    {
        self.happens(&event, now, weigher)
    }

    // The event is made ready and carried out.
    fn happens(&mut self, event: &Event, now: u64, weigher: &W) -> Result<Done, Refusal>
        ensures { AnswersEvent W.weight_of (station_of self.old) event.now now result (station_of self.new) }
    {
        match self.plan(event, now, weigher) {
            Err(refusal) => Err(refusal),
            Ok(planned) => match self.carry_out(planned) {
                Ok(done) => Ok(done),
                Err(_) => Err(Refusal::OutOfMemory),
            },
        }
    }
}
