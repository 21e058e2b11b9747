//! A node that is opened for a change of its tables: it has all memory that it can't do without, so nothing can be refused
//! any more.
ghost use Rattle.std.specs.Prelude.{◌≡◌, true, IfOk, IfErr};
ghost use Rattle.sup_replica.specs.Stations.{Station};
ghost use Rattle.sup_tables.specs.States.{State};
ghost use Rattle.sup_node.specs.Changes.{saves, station_after};
ghost use Rattle.sup_node.specs.Contents.{station_of};
ghost use Rattle.sup_node.specs.NodeSteps.{IsPlanNow};
ghost use Rattle.sup_node.specs.OpenNodes.{IsOpenNode, answer_of};

use crate::change::Change;
use crate::node::Node;
use crate::opened::OpenState;
use crate::planned::Planned;
use std::marker::PhantomData;
use sup_placement::Weigh;
use sup_replica::Done;

/// A node that is opened for a change that is saved: it becomes the node after it, or the node as it was.
#[derive(Drop)]
pub struct OpenNode<W: Weigh> {
    pub(crate) state: OpenState,
    pub(crate) done: Done,
    weigher: PhantomData<W>,
}

impl<W: Weigh> Node<W> {
    /// Takes the memory without which a change that is saved can't be carried out, with the node as it was when that was
    /// planned. An `Err` is want of memory, and gives the node back.
    pub fn open(self, planned: Planned) -> Result<OpenNode<W>, Node<W>>
        requires plan { IsPlanNow W.weight_of (station_of self) planned }
        requires saved { saves planned.change ≡ true }
        ensures open { IfOk result (λ o. IsOpenNode W.weight_of o (station_of self) (station_after (station_of self) planned.change)) }
        ensures done { IfOk result (λ o. answer_of o ≡ planned.done) }
        ensures refused { IfErr result (λ n. station_of n ≡ station_of self) }
    {
        let Node { state, weigher } = self;
        let Planned { done, change } = planned;
        match change {
            Change::Learns(learned) => match state.open(learned) {
                Ok(state) => Ok(OpenNode {
                    state,
                    done,
                    weigher,
                }),
                Err(state) => Err(Node { state, weigher }),
            },
            _ => unreachable!(),
        }
    }
}

impl<W: Weigh> OpenNode<W> {
    /// The node after the change, and the answer. It can't be refused: the list of kept children alone may ask for memory, and
    /// does without where there is none.
    pub fn carried_out(self) -> (Node<W>, Done)
        requires { (old : Station State) × (new : Station State) × IsOpenNode W.weight_of self old new }
        ensures node { (old : Station State) (new : Station State) → IsOpenNode W.weight_of self old new → station_of result.0 ≡ new }
        ensures done { result.1 ≡ answer_of self }
    {
        let OpenNode {
            state,
            done,
            weigher,
        } = self;
        let state = state.carried_out();
        (Node { state, weigher }, done)
    }

    /// The node as it was. It takes no memory.
    pub fn given_up(self) -> Node<W>
        requires { (old : Station State) × (new : Station State) × IsOpenNode W.weight_of self old new }
        ensures { (old : Station State) (new : Station State) → IsOpenNode W.weight_of self old new → station_of result ≡ old }
    {
        let OpenNode {
            state,
            done: _,
            weigher,
        } = self;
        let state = state.given_up();
        Node { state, weigher }
    }
}
