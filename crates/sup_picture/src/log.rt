//! What happened in a run, row by row, as far as a picture shows it.

ghost use Rattle.std.specs.Prelude.{◌≡◌};

use std::marker::Model;
use sup_specs::{ChildId, NodeName};

/// The bytes of a text. A contract sees them as a list.
#[derive(Drop)]
pub struct Caption {
    bytes: Vec<u8>,
}

impl Model for Caption {
    ghost use Rattle.std.specs.Prelude.{ℕ, List};

    ghost Value = { List ℕ };

    ghost view = { λ c. c.bytes.items };
}

impl Caption {
    /// These bytes.
    pub fn new(bytes: Vec<u8>) -> Caption
        ensures { result ≡ bytes.items }
    {
        Caption { bytes }
    }

    /// The bytes, in their order.
    pub fn as_slice(&self) -> &[u8]
        ensures { result.now ≡ self.now }
    {
        &self.bytes
    }
}

/// Where a row's mark stands, and, at a node, whether it tells of a refusal.
#[derive(Clone, Copy)]
pub enum Mark {
    /// No step is made in this row.
    Nowhere,
    /// The nodes exchange all that they know, or are cut short in that.
    Everywhere,
    /// A node did something.
    Done(NodeName),
    /// A step at this node was refused, or a delivery of a message of it whose receiver isn't known.
    Refused(NodeName),
}

/// A row of the picture, which stands for a line of the script.
#[derive(Drop)]
pub struct Row {
    /// Its number from the top, from 0.
    pub row: u64,
    /// The line.
    pub line: Caption,
    /// What it printed; nothing where no step is made.
    pub said: Caption,
    pub mark: Mark,
}

/// Which message it is: the number-th that this node ever sent, from 1.
#[derive(Clone, Copy)]
pub struct Message {
    pub from: NodeName,
    pub number: u64,
}

/// What became of a message that came.
#[derive(Clone, Copy)]
pub enum Way {
    /// Something was learned from it.
    Learned,
    /// All of it was known.
    Known,
    /// It is an acknowledgement, and was taken.
    Acked,
    /// Bytes of it were missing.
    Cut,
    /// It was refused since it came to another node than its receiver.
    Misdirected,
    /// It was refused for another reason.
    Refused,
}

/// What happened to a message in a row.
#[derive(Clone, Copy)]
pub enum Post {
    /// It left for this receiver.
    Left {
        message: Message,
        to: NodeName,
        row: u64,
    },
    /// It came to this node.
    Came {
        message: Message,
        at: NodeName,
        way: Way,
        row: u64,
    },
}

/// A run of a child: its boot, and which of the boot's runs it is.
#[derive(Drop)]
pub struct ChildRun {
    pub child: ChildId,
    pub boot: u64,
    pub k: u64,
}

/// What became of a node or of a child that it runs.
#[derive(Drop)]
pub enum Turn {
    Began(ChildRun),
    Ended(ChildRun),
    /// The node stopped, and so did each of its children.
    Down,
    /// The node runs again.
    Up,
}

/// A turn at a node, in a row.
#[derive(Drop)]
pub struct Change {
    pub node: NodeName,
    pub turn: Turn,
    pub row: u64,
}

/// What happened, each list in the order of time.
#[derive(Drop)]
pub struct Log {
    pub rows: Vec<Row>,
    pub posts: Vec<Post>,
    pub changes: Vec<Change>,
}
