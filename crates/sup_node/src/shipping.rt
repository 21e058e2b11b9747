//! What a node sends when it is told to.
ghost use Rattle.sup_wire.specs.RowTexts.{AreRows};
ghost use Rattle.sup_replica.specs.declared.event.Event.TheVariants.{Ship, Push};
ghost use Rattle.sup_node.specs.NodeStates.{station_in};
ghost use Rattle.sup_node.specs.NodeSteps.{PlansPlaced};

use crate::letters::{delta_letter, push_letter, whole_letter};
use crate::planned::Planned;
use crate::state::NodeState;
use sup_array_text::ArrayText;
use sup_replica::Refusal;
use sup_specs::NodeName;

impl NodeState {
    // A peer is sent what it hasn't acknowledged.
    pub(crate) fn ship(&self, to: &NodeName) -> Result<Planned, Refusal>
        ensures { PlansPlaced (station_in self.now) (Ship to.now) result }
    {
        let replica = &self.replica;
        if replica.is_named(to) {
            return Err(Refusal::UnknownNode);
        }
        if self.buffer.acknowledged(to) == self.buffer.count() {
            return Err(Refusal::UpToDate);
        }
        match self.buffer.ship(replica.tables(), to)? {
            None => Err(Refusal::UpToDate),
            Some(shipment) => {
                let letter = delta_letter(replica.alloc(), *replica.name(), *to, shipment)?;
                Ok(Planned::sent(replica.alloc(), letter))
            }
        }
    }

    // The same, where the texts of the rows that it knows are kept: a ship of all of these copies them.
    pub(crate) fn ship_with(&self, texts: &ArrayText, to: &NodeName) -> Result<Planned, Refusal>
        requires { AreRows (station_in self.now).node.known.rows texts.now.items }
        ensures { PlansPlaced (station_in self.now) (Ship to.now) result }
    {
        let replica = &self.replica;
        if replica.is_named(to) {
            return Err(Refusal::UnknownNode);
        }
        let n = self.buffer.count();
        let missing = n - self.buffer.acknowledged(to);
        if missing <= self.buffer.held() as u64 {
            return self.ship(to);
        }
        let context = replica.tables().context();
        // For the letter: the counters of known dots are in their limits.
        context.counted();
        let letter = whole_letter(replica.alloc(), *replica.name(), *to, n, texts, context)?;
        Ok(Planned::sent(replica.alloc(), letter))
    }

    // A peer is sent the newest own operation.
    pub(crate) fn push(&self, to: &NodeName) -> Result<Planned, Refusal>
        ensures { PlansPlaced (station_in self.now) (Push to.now) result }
    {
        let replica = &self.replica;
        replica.is_counted();
        if replica.is_named(to) {
            return Err(Refusal::UnknownNode);
        }
        match replica.newest() {
            None => Err(Refusal::NothingToPush),
            Some(own) => {
                let delta = own.try_clone(replica.alloc())?;
                let letter = push_letter(replica.alloc(), *replica.name(), *to, delta)?;
                Ok(Planned::sent(replica.alloc(), letter))
            }
        }
    }
}
