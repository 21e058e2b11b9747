//! What a link carries, and the rule of its channel: one end puts, the other takes, in order.
ghost use Rattle.std.specs.Prelude.{◌≡◌, ⊤, true, false, [], ◌∷◌, ◌++◌};
ghost use Rattle.sup_links.specs.Relay.{log, Relayed};

use crossbeam_channel::protocol::{Join, Lesson, Outcome, Protocol, Split};
use crossbeam_channel::{Pass, RuledReceiver, RuledSender};
use std::collections::LinkedList;

/// A copy of a message, or the mark behind the last one.
#[derive(Drop)]
pub enum Parcel {
    Text(Vec<u8>),
    End,
}

// What a pass may do (put, take), what it has put and what it has taken. No value of it is made.
pub struct Seen {
    pub puts: bool,
    pub takes: bool,
    pub put: LinkedList<Parcel>,
    pub taken: LinkedList<Parcel>,
}

pub struct InOrder;

impl Protocol<Parcel, Seen> for InOrder {
    ghost holds = { Relayed };

    ghost first = { log true true [] [] };
}

pub struct Roles;

impl Split<Seen> for Roles {
    ghost left = { λ v. log true false v.put [] };

    ghost right = { λ v. log false true [] v.taken };
}

// The taking pass takes in the putting one, and gives it away again.
pub struct Meeting;

impl Join<Seen> for Meeting {
    ghost both = { λ v w. log true true w.put v.taken };

    ghost spent = { log false false [] [] };
}

impl Split<Seen> for Meeting {
    ghost left = { λ v. log false true [] v.taken };

    ghost right = { λ v. log true false v.put [] };
}

pub struct Puts;

impl Outcome<Parcel, Seen> for Puts {
    ghost then = { λ v x w. w ≡ log v.puts v.takes (v.put ++ x ∷ []) v.taken };
}

impl Lesson<Parcel, Seen> for Puts {
    ghost fact = { λ v items. ⊤ };
}

pub struct Takes;

impl Outcome<Parcel, Seen> for Takes {
    ghost then = { λ v x w. w ≡ log v.puts v.takes v.put (v.taken ++ x ∷ []) };
}

impl Lesson<Parcel, Seen> for Takes {
    ghost fact = { λ v items. ⊤ };
}

pub struct Meets;

impl Lesson<Parcel, Seen> for Meets {
    ghost fact = { λ v items. v.put ≡ v.taken ++ items };
}

pub type Putting = RuledSender<Parcel, Seen, InOrder>;

pub type Taking = RuledReceiver<Parcel, Seen, InOrder>;

pub type Place = Pass<Parcel, Seen>;
