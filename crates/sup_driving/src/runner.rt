//! What those who run a cluster are told while it runs.
ghost use Rattle.std.specs.Prelude.{◌≡◌, ℕ, Bool, true, List};
ghost use Rattle.sup_specs.specs.Values.{Bytes};
ghost use Rattle.sup_local_sup.specs.declared.effect.Effect.{Effect};
ghost use Rattle.sup_plan.specs.declared.plan.Command.{Command};

use sup_plan::Command;
use sup_posts::{Request, Requests};
use sup_specs::NodeName;

/// Does what nodes' answers ask to be done with their children. Several threads tell it of one node, and between threads there is no order:
/// of a node that was stopped, a start of the boot before may be told after one of the new boot. Incarnations are in order, by boot and
/// then by number, so who runs children leaves out a start that is older than what it has. That a node stops is not told: its children end
/// with it.
pub trait Runner {
    /// What it was told of a node, by its name, and answered. A run's contract says for which nodes, effects and answers it holds, and only
    /// [`act`](Runner::act) shows it: so the run did call it with these. Who has nothing to say of an answer takes `Unit`.
    ghost did: { Self → Bytes → Effect → Bool → Type 0 };

    /// Does what the node asks for. False where a start failed: the thread that called this then tells the node that the child's run has
    /// ended, with the reason `failed`. What is answered to a stop is not looked at.
    fn act(&self, request: Request) -> bool
        ensures { did self.now request.node request.effect result };
}

/// Stands by each command of a driver.
pub trait Checkpoint {
    /// That it was told of a node, by its name, that this command comes, and at which place, as [`Runner::did`].
    ghost was_before: { Self → Bytes → Command → ℕ → Type 0 };

    /// The same of the answer of the command at this place, and of the effects that it asks for.
    ghost was_answered: { Self → Bytes → ℕ → List Effect → Type 0 };

    /// Before the node's command at this place, from 1. It is lent the command, which the call then uses up.
    fn before(&self, node: &NodeName, place: u64, command: &Command)
        ensures { was_before self.now node.now command.entry.now place };

    /// After that command was answered. It is lent what the answer asks for, all of it, which only the call makes; then the runner is told of
    /// it.
    fn answered(&self, node: &NodeName, place: u64, asks: &Requests)
        ensures { was_answered self.now node.now place asks.now.effects };
}

/// Does nothing, and fails at nothing.
pub struct Quiet;

impl Runner for Quiet {
    ghost did = { λ quiet node effect answer. answer ≡ true };

    fn act(&self, _request: Request) -> bool {
        true
    }
}

impl Checkpoint for Quiet {
    ghost was_before = { λ quiet node command place. Unit {0} };

    ghost was_answered = { λ quiet node place effects. Unit {0} };

    fn before(&self, _node: &NodeName, _place: u64, _command: &Command) {}

    fn answered(&self, _node: &NodeName, _place: u64, _asks: &Requests) {}
}
