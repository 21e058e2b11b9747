//! What a node answers.
ghost use Rattle.std.specs.Prelude.{◌≡◌, IfOk};

use crate::copies::effects_copy;
use crate::letter::Letter;
use std::alloc::{AllocError, Global};
use std::marker::Model;
use sup_causal::Dot;
use sup_local_sup::Effects;

/// What an act gives: its reply, what is to be done with children, and a letter that leaves.
#[derive(Drop)]
pub struct Done {
    pub reply: Reply,
    pub effects: Effects,
    pub out: Option<Letter>,
}

impl Done {
    /// A copy, which equals its source.
    ///
    /// # Errors
    ///
    /// `AllocError` where memory for it was refused.
    pub fn try_clone(&self, alloc: Global) -> Result<Done, AllocError>
        ensures { IfOk result (λ copy. copy ≡ self.now) }
    {
        let reply = self.reply.try_clone(alloc)?;
        let effects = effects_copy(alloc, &self.effects)?;
        let out = match &self.out {
            Some(letter) => Some(letter.try_clone(alloc)?),
            None => None,
        };
        Ok(Done {
            reply,
            effects,
            out,
        })
    }
}

/// What is replied to an act that isn't refused.
#[derive(Drop)]
pub enum Reply {
    /// An entry was added under this dot.
    Added(Dot),
    /// An entry was added under this dot, and these dots were removed, in dot order.
    Replaced(Dot, Dots),
    /// These dots were removed, in dot order.
    Removed(Dots),
    /// The child begins a new run.
    Restarted,
    /// The entry under this dot is done, and removed.
    Finished(Dot),
    /// There were too many restarts: the node is no member any more, and these dots were removed, in dot order.
    GaveUp(Dots),
    /// A message leaves.
    Sent,
    /// The node learned something.
    Absorbed,
    /// The node knew it all.
    Known,
    /// The acknowledgement was taken.
    Acked,
    Stopped,
    /// The node runs, in this boot.
    Boot(u64),
}

impl Reply {
    /// A copy, which equals its source.
    ///
    /// # Errors
    ///
    /// `AllocError` where memory for it was refused.
    pub fn try_clone(&self, alloc: Global) -> Result<Reply, AllocError>
        ensures { IfOk result (λ copy. copy ≡ self.now) }
    {
        Ok(match self {
            Reply::Added(dot) => Reply::Added(*dot),
            Reply::Replaced(dot, dots) => Reply::Replaced(*dot, dots.try_clone(alloc)?),
            Reply::Removed(dots) => Reply::Removed(dots.try_clone(alloc)?),
            Reply::Restarted => Reply::Restarted,
            Reply::Finished(dot) => Reply::Finished(*dot),
            Reply::GaveUp(dots) => Reply::GaveUp(dots.try_clone(alloc)?),
            Reply::Sent => Reply::Sent,
            Reply::Absorbed => Reply::Absorbed,
            Reply::Known => Reply::Known,
            Reply::Acked => Reply::Acked,
            Reply::Stopped => Reply::Stopped,
            Reply::Boot(boot) => Reply::Boot(*boot),
        })
    }
}

/// Dots inside a reply. A contract sees them as a list.
#[derive(Drop)]
pub struct Dots {
    dots: Vec<Dot>,
}

impl Model for Dots {
    ghost use Rattle.std.specs.Prelude.{List};
    ghost use Rattle.sup_causal.specs.declared.dot.Dot.{Dot};

    ghost Value = { List Dot };

    ghost view = { λ d. d.dots.items };
}

impl Dots {
    /// These dots.
    pub fn new(dots: Vec<Dot>) -> Dots
        ensures { result ≡ dots.items }
    {
        Dots { dots }
    }

    /// The dots, in their order.
    pub fn as_slice(&self) -> &[Dot]
        ensures { result.now ≡ self.now }
    {
        &self.dots
    }

    /// A copy, which equals its source.
    ///
    /// # Errors
    ///
    /// `AllocError` where memory for it was refused.
    pub fn try_clone(&self, alloc: Global) -> Result<Dots, AllocError>
        ensures { IfOk result (λ copy. copy ≡ self.now) }
    {
        let dots = self.dots.to_vec(alloc)?;
        Ok(Dots { dots })
    }
}
