//! What a node asks of those who run its children.
ghost use Rattle.std.specs.Prelude.{◌≡◌, ◌∷◌, [], IfNone, IfSome};
ghost use Rattle.std.specs.Slice.{IsItemAt};

use std::collections::VecDeque;
use std::marker::Model;
use sup_local_sup::{Effect, Effects};
use sup_specs::NodeName;

/// An effect of a node's answer, to be done once. Each effect of an answer that a thread of a run gets makes one, and nothing else does: so
/// nothing is asked for that no answer has, and nothing twice.
#[derive(Drop)]
pub struct Request {
    node: NodeName,
    effect: Effect,
}

impl Model for Request {
    ghost use Rattle.sup_posts.specs.Requests.{Asked};

    ghost Value = { Asked };

    ghost view = { λ r. record { node = r.node; effect = r.effect } };
}

impl Request {
    /// The node that asks.
    pub fn node(&self) -> &NodeName
        ensures { result.now ≡ self.now.node }
    {
        &self.node
    }

    /// What is to be done with its child.
    pub fn effect(&self) -> &Effect
        ensures { result.now ≡ self.now.effect }
    {
        &self.effect
    }

    /// The same, given away.
    pub fn into_effect(self) -> Effect
        ensures { result ≡ self.effect }
    {
        let Request { node: _, effect } = self;
        effect
    }
}

/// The requests of one answer that were not made yet.
#[derive(Drop)]
pub struct Requests {
    node: NodeName,
    effects: VecDeque<Effect>,
}

impl Model for Requests {
    ghost use Rattle.sup_posts.specs.Requests.{Unasked};

    ghost Value = { Unasked };

    ghost view = { λ r. record { node = r.node; effects = r.effects.items } };
}

impl Requests {
    // Those of an answer of this node with these effects.
    pub(crate) fn of(node: NodeName, effects: Effects) -> Requests
        ensures { result ≡ record { node = node; effects = effects } }
    {
        Requests {
            node,
            effects: VecDeque::from_vec(effects.into_vec()),
        }
    }

    /// The effect at this place, from 0, of those that were not taken out yet; none behind the last.
    pub fn effect(&self, place: usize) -> Option<&Effect>
        ensures { IsItemAt self.now.effects place result }
    {
        self.effects.get(place)
    }

    /// Takes the next one out, in the order of the effects.
    pub fn take(&mut self) -> Option<Request>
        ensures node { self.new.node ≡ self.old.node }
        ensures some { IfSome result (λ r. r.node ≡ self.old.node × (self.old.effects ≡ r.effect ∷ self.new.effects)) }
        ensures none { IfNone result (self.old.effects ≡ []) }
        ensures ended { IfNone result (self.new.effects ≡ []) }
    {
        let effect = self.effects.pop_front()?;
        Some(Request {
            node: self.node,
            effect,
        })
    }
}
