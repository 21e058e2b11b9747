//! What happens at a node.
ghost use Rattle.std.specs.Prelude.{◌≡◌, IfOk};

use crate::letter::MessageText;
use std::alloc::{AllocError, Global};
use sup_local_sup::Incarnation;
use sup_specs::{ChildId, ChildSpec, ExitReason, Name, NodeName, Plain, Text};

/// What happens at a node that runs.
#[derive(Drop)]
pub enum Event {
    /// The node becomes a member, under this label.
    Join(Text),
    /// A member is taken out.
    Leave(NodeName),
    /// A member stays, and no child is placed on it any more.
    Drain(NodeName),
    /// A child is added.
    Start(ChildId, ChildSpec),
    /// A child is taken out, and each name that stands for it.
    Delete(ChildId),
    /// A child that is there gets a new specification.
    Replace(ChildId, ChildSpec),
    /// A name gets a child that it stands for.
    Register(Name, ChildId),
    /// A name is taken back.
    Unregister(Name),
    /// A run of a child has ended.
    Exit {
        id: ChildId,
        inc: Incarnation,
        reason: ExitReason,
    },
    /// Another node is sent what it hasn't acknowledged.
    Ship(NodeName),
    /// Another node is sent the newest own operation.
    Push(NodeName),
    /// A message has come.
    Deliver(MessageText),
}

impl Event {
    /// A copy, which equals its source.
    ///
    /// # Errors
    ///
    /// `AllocError` where memory for it was refused.
    pub fn try_clone(&self, alloc: Global) -> Result<Event, AllocError>
        ensures { IfOk result (λ copy. copy ≡ self.now) }
    {
        Ok(match self {
            Event::Join(label) => Event::Join(label.try_clone(alloc)?),
            Event::Leave(member) => Event::Leave(*member),
            Event::Drain(member) => Event::Drain(*member),
            Event::Start(id, spec) => Event::Start(id.try_clone(alloc)?, spec.try_clone(alloc)?),
            Event::Delete(id) => Event::Delete(id.try_clone(alloc)?),
            Event::Replace(id, spec) => {
                Event::Replace(id.try_clone(alloc)?, spec.try_clone(alloc)?)
            }
            Event::Register(name, id) => {
                Event::Register(name.try_clone(alloc)?, id.try_clone(alloc)?)
            }
            Event::Unregister(name) => Event::Unregister(name.try_clone(alloc)?),
            Event::Exit { id, inc, reason } => Event::Exit {
                id: id.try_clone(alloc)?,
                inc: *inc,
                reason: reason.try_clone(alloc)?,
            },
            Event::Ship(to) => Event::Ship(*to),
            Event::Push(to) => Event::Push(*to),
            Event::Deliver(bytes) => Event::Deliver(bytes.try_clone(alloc)?),
        })
    }
}

/// What a node is told to do.
#[derive(Drop)]
pub enum Act {
    Event(Event),
    /// It ends, and keeps its image alone.
    Stop,
    /// It begins a new boot from its image.
    Restart,
}

impl Act {
    /// A copy, which equals its source.
    ///
    /// # Errors
    ///
    /// `AllocError` where memory for it was refused.
    pub fn try_clone(&self, alloc: Global) -> Result<Act, AllocError>
        ensures { IfOk result (λ copy. copy ≡ self.now) }
    {
        Ok(match self {
            Act::Event(event) => Act::Event(event.try_clone(alloc)?),
            Act::Stop => Act::Stop,
            Act::Restart => Act::Restart,
        })
    }
}
