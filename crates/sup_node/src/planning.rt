//! Events, each made ready where it belongs.
ghost use Rattle.std.specs.Prelude.{◌≡◌, true};
ghost use Rattle.sup_node.specs.NodeStates.{station_in};
ghost use Rattle.sup_node.specs.NodeSteps.{PlansEvent};
ghost use Rattle.sup_node.specs.Placed.{keeps_placed};
ghost use Rattle.sup_node.specs.TakenMail.{planned_of};

use crate::change::Ready;
use crate::planned::Planned;
use crate::state::NodeState;
use sup_placement::Weigh;
use sup_replica::{Event, Refusal};

impl NodeState {
    // Makes an event ready.
    pub(crate) fn plan<W: Weigh>(
        &self,
        event: &Event,
        now: u64,
        weigher: &W,
    ) -> Result<Planned, Refusal>
        requires { keeps_placed W.weight_of (station_in self.now).node ≡ true }
        ensures { PlansEvent W.weight_of (station_in self.now) event.now now result }
    {
        let replica = &self.replica;
        match event {
            Event::Join(label) => planned(replica.join(label, weigher)),
            Event::Leave(member) => planned(replica.leave(member, weigher)),
            Event::Drain(member) => planned(replica.drain(member, weigher)),
            Event::Start(id, spec) => planned(replica.start(id, spec, weigher)),
            Event::Delete(id) => planned(replica.delete(id, weigher)),
            Event::Replace(id, spec) => planned(replica.replace(id, spec, weigher)),
            Event::Register(name, id) => planned(replica.register(name, id, weigher)),
            Event::Unregister(name) => planned(replica.unregister(name, weigher)),
            Event::Exit { id, inc, reason } => {
                planned(replica.exit(id, *inc, reason, now, weigher))
            }
            Event::Ship(to) => self.ship(to),
            Event::Push(to) => self.push(to),
            Event::Deliver(bytes) => self.deliver(bytes, weigher),
        }
    }
}

// What is ready, with no letter.
fn planned(ready: Result<Ready, Refusal>) -> Result<Planned, Refusal>
    ensures { result ≡ planned_of ready }
{
    match ready {
        Ok(ready) => Ok(Planned::with_letter(ready, None)),
        Err(refusal) => Err(refusal),
    }
}
