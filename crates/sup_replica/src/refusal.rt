//! Why an act is refused.
ghost use Rattle.std.specs.Prelude.{◌≡◌};
ghost use Rattle.sup_replica.specs.Refusals.{number_of};

use std::alloc::AllocError;
use thiserror::Error;

/// Why an act is refused. A refused act leaves the node and its image as they were.
#[derive(Clone, Copy, Debug, PartialEq, Eq, Error)]
pub enum Refusal {
    #[error("the node is stopped")]
    Down,
    #[error("the node is up already")]
    AlreadyUp,
    #[error("no such node, or a ship or push to itself")]
    UnknownNode,
    #[error("the child is there already")]
    AlreadyPresent,
    #[error("there is no such child")]
    NotFound,
    #[error("the node is a member already")]
    AlreadyMember,
    #[error("there is no such member")]
    NotMember,
    #[error("the name is taken")]
    NameTaken,
    #[error("there is no such child to register")]
    NoSuchChild,
    #[error("there is no such name")]
    NameUnknown,
    #[error("the node's dots are spent")]
    DotsSpent,
    #[error("the receiver has acknowledged all")]
    UpToDate,
    #[error("no such message was sent")]
    NoSuchMessage,
    #[error("no such run of the child is kept")]
    StaleExit,
    #[error("the tables are full")]
    TableFull,
    #[error("the image could not be kept or read")]
    KeepFailed,
    #[error("the bytes are no message or image for this node")]
    BadMessage,
    #[error("the message is for another node")]
    WrongReceiver,
    #[error("out of memory")]
    OutOfMemory,
    #[error("the history is full")]
    HistoryFull,
    #[error("a count, boot or incarnation is spent")]
    CountSpent,
    #[error("there is no own operation since the boot")]
    NothingToPush,
    #[error("the member is draining already")]
    AlreadyDraining,
}

impl Refusal {
    /// The refusal's number, from 1 to 23.
    pub fn number(self) -> u64
        ensures { result ≡ number_of self }
    {
        match self {
            Refusal::Down => 1,
            Refusal::AlreadyUp => 2,
            Refusal::UnknownNode => 3,
            Refusal::AlreadyPresent => 4,
            Refusal::NotFound => 5,
            Refusal::AlreadyMember => 6,
            Refusal::NotMember => 7,
            Refusal::NameTaken => 8,
            Refusal::NoSuchChild => 9,
            Refusal::NameUnknown => 10,
            Refusal::DotsSpent => 11,
            Refusal::UpToDate => 12,
            Refusal::NoSuchMessage => 13,
            Refusal::StaleExit => 14,
            Refusal::TableFull => 15,
            Refusal::KeepFailed => 16,
            Refusal::BadMessage => 17,
            Refusal::WrongReceiver => 18,
            Refusal::OutOfMemory => 19,
            Refusal::HistoryFull => 20,
            Refusal::CountSpent => 21,
            Refusal::NothingToPush => 22,
            Refusal::AlreadyDraining => 23,
        }
    }
}

impl From<AllocError> for Refusal {
    ghost use Rattle.std.specs.Prelude.{◌≡◌};
    ghost use Rattle.sup_replica.specs.declared.refusal.Refusal.TheVariants.{OutOfMemory};

    ghost from_gives = { λ _ r. r ≡ OutOfMemory };

    fn from(_error: AllocError) -> Refusal {
        Refusal::OutOfMemory
    }
}
