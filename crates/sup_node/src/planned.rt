//! An event that is made ready.
ghost use Rattle.std.specs.Prelude.{◌≡◌, [], Some, None};
ghost use Rattle.sup_replica.specs.declared.done.Reply.TheVariants.{Sent, Acked};
ghost use Rattle.sup_node.specs.declared.change.Change.TheVariants.{Nothing, Acknowledges};

use crate::change::{Change, Ready};
use std::alloc::Global;
use sup_local_sup::Effects;
use sup_replica::{Done, Letter, Reply};
use sup_specs::NodeName;

/// What an event answers, and what becomes of the node, made ready by [`Node::plan`](crate::Node::plan). It borrows nothing.
#[derive(Drop)]
pub struct Planned {
    pub(crate) done: Done,
    pub(crate) change: Change,
}

impl Planned {
    /// The answer, if the event is carried out.
    pub fn done(&self) -> &Done
        ensures { result.now ≡ self.now.done }
    {
        &self.done
    }

    // A letter leaves, and nothing changes.
    pub(crate) fn sent(alloc: Global, letter: Letter) -> Planned
        ensures { result ≡ record { done = record { reply = Sent; effects = []; out = Some letter }; change = Nothing } }
    {
        let done = Done {
            reply: Reply::Sent,
            effects: Effects::new(Vec::new(alloc)),
            out: Some(letter),
        };
        Planned {
            done,
            change: Change::Nothing,
        }
    }

    // An acknowledgement is taken.
    pub(crate) fn acked(alloc: Global, from: NodeName, n: u64) -> Planned
        ensures { result ≡ record { done = record { reply = Acked; effects = []; out = None }; change = Acknowledges from n } }
    {
        let done = Done {
            reply: Reply::Acked,
            effects: Effects::new(Vec::new(alloc)),
            out: None,
        };
        Planned {
            done,
            change: Change::Acknowledges(from, n),
        }
    }

    // What was made ready, with the letter that answers it.
    pub(crate) fn with_letter(ready: Ready, out: Option<Letter>) -> Planned
        ensures { result ≡ record { done = record { reply = ready.reply; effects = ready.effects; out = out }; change = ready.change } }
    {
        let Ready {
            reply,
            effects,
            change,
        } = ready;
        Planned {
            done: Done {
                reply,
                effects,
                out,
            },
            change,
        }
    }
}
