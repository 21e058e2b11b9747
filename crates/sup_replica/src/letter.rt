//! What a node sends.
ghost use Rattle.std.specs.Prelude.{◌≡◌, IfOk};

use std::alloc::{AllocError, Global};
use std::marker::Model;
use sup_specs::NodeName;

/// A message of a node, ready for its receiver.
#[derive(Drop)]
pub struct Letter {
    pub to: NodeName,
    pub kind: LetterKind,
    pub bytes: MessageText,
}

impl Letter {
    /// A copy, which equals its source.
    ///
    /// # Errors
    ///
    /// `AllocError` where memory for it was refused.
    pub fn try_clone(&self, alloc: Global) -> Result<Letter, AllocError>
        ensures { IfOk result (λ copy. copy ≡ self.now) }
    {
        let bytes = self.bytes.try_clone(alloc)?;
        Ok(Letter {
            to: self.to,
            kind: self.kind,
            bytes,
        })
    }
}

/// What a message brings. A delta's number is its sender's count of changes.
#[derive(Clone, Copy)]
pub enum LetterKind {
    /// The changes up to this count that its receiver hasn't acknowledged.
    Part(u64),
    /// All that its sender knew at this count.
    Whole(u64),
    /// The sender's newest own operation.
    Push,
    /// That its sender has what the receiver sent with this number.
    Ack(u64),
}

/// The bytes of a message. A contract sees them as a list.
#[derive(Drop)]
pub struct MessageText {
    bytes: Vec<u8>,
}

impl Model for MessageText {
    ghost use Rattle.std.specs.Prelude.{ℕ, List};

    ghost Value = { List ℕ };

    ghost view = { λ t. t.bytes.items };
}

impl MessageText {
    /// These bytes.
    pub fn new(bytes: Vec<u8>) -> MessageText
        ensures { result ≡ bytes.items }
    {
        MessageText { bytes }
    }

    /// The bytes, in their order.
    pub fn as_slice(&self) -> &[u8]
        ensures { result.now ≡ self.now }
    {
        &self.bytes
    }

    /// A copy, which equals its source.
    ///
    /// # Errors
    ///
    /// `AllocError` where memory for it was refused.
    pub fn try_clone(&self, alloc: Global) -> Result<MessageText, AllocError>
        ensures { IfOk result (λ copy. copy ≡ self.now) }
    {
        let bytes = self.bytes.to_vec(alloc)?;
        Ok(MessageText { bytes })
    }
}
