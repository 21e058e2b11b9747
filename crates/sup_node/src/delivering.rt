//! What becomes of bytes that come.
ghost use Rattle.std.specs.Prelude.{◌≡◌, ◌≢◌, ℕ, true, false};
ghost use Rattle.sup_replica.specs.declared.event.Event.TheVariants.{Deliver};
ghost use Rattle.sup_wire.specs.Faults.{IsInRange};
ghost use Rattle.sup_wire.specs.Forms.{IsCount};
ghost use Rattle.sup_replica.specs.Stations.{a_delta, a_push, an_ack};
ghost use Rattle.sup_node.specs.NodeStates.{station_in};
ghost use Rattle.sup_node.specs.NodeSteps.{PlansEvent};
ghost use Rattle.sup_node.specs.Placed.{keeps_placed};
ghost use Rattle.sup_node.specs.TakenMail.{TakesMail, TakesMailPlaced};
ghost use Rattle.sup_node.specs.Texts.{mail_of};

use crate::letters::ack_letter;
use crate::planned::Planned;
use crate::state::NodeState;
use sup_placement::Weigh;
use sup_replica::{MessageText, Refusal};
use sup_specs::NodeName;
use sup_tables::Tables;
use sup_wire::{Message, WireFault, decode};

impl NodeState {
    // Bytes come.
    pub(crate) fn deliver<W: Weigh>(
        &self,
        bytes: &MessageText,
        weigher: &W,
    ) -> Result<Planned, Refusal>
        requires { keeps_placed W.weight_of (station_in self.now).node ≡ true }
        ensures { (now : ℕ) → PlansEvent W.weight_of (station_in self.now) (Deliver bytes.now) now result }
    {
        match decode(self.replica.alloc(), bytes.as_slice()) {
            Err(WireFault::OutOfMemory) => Err(Refusal::OutOfMemory),
            Err(_) => Err(Refusal::BadMessage),
            Ok(message) => self.take(message, weigher),
        }
    }

    // A message comes.
    fn take<W: Weigh>(&self, message: Message, weigher: &W) -> Result<Planned, Refusal>
        requires keeps { keeps_placed W.weight_of (station_in self.now).node ≡ true }
        requires in_range { IsInRange message }
        ensures { TakesMail W.weight_of (station_in self.now) (mail_of message) result }
    {
        match message {
            Message::Ack { from, to, n } => self.take_ack(from, &to, n),
            Message::Push { from, to, delta } => self.take_push(from, &to, delta, weigher),
            Message::Delta { from, to, n, delta } => self.take_delta(from, &to, n, delta, weigher),
        }
    }

    // A peer has what it was sent.
    fn take_ack(&self, from: NodeName, to: &NodeName, n: u64) -> Result<Planned, Refusal>
        ensures { TakesMailPlaced (station_in self.now) (an_ack from to.now n) result }
    {
        if !self.replica.is_named(to) {
            return Err(Refusal::WrongReceiver);
        }
        if self.replica.count() < n {
            return Err(Refusal::BadMessage);
        }
        Ok(Planned::acked(self.replica.alloc(), from, n))
    }

    // A peer's newest operation comes.
    fn take_push<W: Weigh>(
        &self,
        from: NodeName,
        to: &NodeName,
        delta: Tables,
        weigher: &W,
    ) -> Result<Planned, Refusal>
        requires { keeps_placed W.weight_of (station_in self.now).node ≡ true }
        ensures { TakesMail W.weight_of (station_in self.now) (a_push from to.now delta) result }
    {
        if !self.replica.is_named(to) {
            return Err(Refusal::WrongReceiver);
        }
        let ready = self.replica.absorb(delta, weigher)?;
        Ok(Planned::with_letter(ready, None))
    }

    // What a peer sent comes, and is acknowledged by its number.
    fn take_delta<W: Weigh>(
        &self,
        from: NodeName,
        to: &NodeName,
        n: u64,
        delta: Tables,
        weigher: &W,
    ) -> Result<Planned, Refusal>
        requires keeps { keeps_placed W.weight_of (station_in self.now).node ≡ true }
        requires differ { from ≢ to.now }
        requires number { IsCount n }
        ensures { TakesMail W.weight_of (station_in self.now) (a_delta from to.now n false delta) result }
    {
        if !self.replica.is_named(to) {
            return Err(Refusal::WrongReceiver);
        }
        let ready = self.replica.absorb(delta, weigher)?;
        let letter = ack_letter(self.replica.alloc(), *self.replica.name(), from, n)?;
        Ok(Planned::with_letter(ready, Some(letter)))
    }
}
