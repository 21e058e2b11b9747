//! The two ends of the channel: what was taken is a beginning of what was put.
ghost use Rattle.std.specs.Prelude.{◌≡◌, ◌<◌, ◌+◌, length, ◌++◌, [], List, true, false, IfOk, option_to_list, IfSome};
ghost use Rattle.crossbeam_channel.specs.Claims.{view, IsSeatAt};
ghost use Rattle.crossbeam_channel.specs.Ends.{sends_on, receives_on, ruled_capacity};
ghost use Rattle.crossbeam_channel.specs.Err.{send_message};
ghost use Rattle.sup_links.specs.Relay.{log};
ghost use Rattle.sup_links.specs.Texts.{IsPutOrHandedBack};
ghost use Rattle.sup_links.specs.declared.channel.Parcel.{Parcel};

use crate::channel::{
    InOrder, Meeting, Meets, Parcel, Place, Puts, Putting, Roles, Seen, Takes, Taking,
};
use crossbeam_channel::bounded_with;
use std::alloc::{AllocError, Global};
use std::sync::Wait;

/// Where parcels go in.
#[derive(Drop)]
pub struct Entry {
    pub end: Putting,
    pub pass: Place,
    ghost seated: { IsSeatAt (sends_on end) pass },
    ghost puts: { view pass ≡ log true false (view pass).put [] },
}

/// Where parcels come out.
#[derive(Drop)]
pub struct Exit {
    pub end: Taking,
    pub pass: Place,
    ghost seated: { IsSeatAt (receives_on end) pass },
    ghost takes: { view pass ≡ log false true [] (view pass).taken },
}

pub fn pipe(alloc: Global, capacity: usize) -> Result<(Entry, Exit), AllocError>
    requires { 0 < capacity }
    ensures one { IfOk result (λ p. receives_on p.1.end ≡ sends_on p.0.end) }
    ensures room { IfOk result (λ p. ruled_capacity (sends_on p.0.end) ≡ capacity) }
    ensures empty { IfOk result (λ p. ((view p.0.pass).put ≡ []) × ((view p.1.pass).taken ≡ [])) }
{
    let (put, take, mut pass) = bounded_with::<Parcel, Seen, InOrder, Global>(alloc, capacity)?;
    let other = put.another::<Roles>(&mut pass);
    Ok((
        Entry { end: put, pass },
        Exit {
            end: take,
            pass: other,
        },
    ))
}

impl Entry {
    /// Handed back where the other end is gone.
    pub fn put<R: Wait>(&mut self, rt: &R, parcel: Parcel) -> Result<(), Parcel>
        ensures end { self.new.end ≡ self.old.end }
        ensures put { IsPutOrHandedBack self.old.pass self.new.pass parcel result }
    {
        let Entry { end, pass } = self;
        match end.send_as::<Puts, R>(rt, pass, parcel) {
            Ok(()) => Ok(()),
            Err(e) => Err(e.into_inner()),
        }
    }
}

impl Exit {
    /// None where the other end is gone.
    pub fn take<R: Wait>(&mut self, rt: &R) -> Option<Parcel>
        ensures end { self.new.end ≡ self.old.end }
        ensures taken { (view self.new.pass).taken ≡ (view self.old.pass).taken ++ option_to_list result }
    {
        let Exit { end, pass } = self;
        match end.recv_as::<Takes, R>(rt, pass) {
            Ok(parcel) => Some(parcel),
            Err(_) => None,
        }
    }

    /// What was taken is a beginning of what was put.
    pub fn meet(&mut self, other: Entry)
        requires { receives_on self.old.end ≡ sends_on other.end }
        ensures end { self.new.end ≡ self.old.end }
        ensures keeps { (view self.new.pass).taken ≡ (view self.old.pass).taken }
        ensures begins { (rest : List Parcel) × ((view other.pass).put ≡ (view self.new.pass).taken ++ rest) }
    {
        let Exit { end: _, pass } = self;
        let Entry {
            end: sender,
            pass: theirs,
        } = other;
        sender.absorb::<Meeting>(pass, theirs);
        sender.learn_as::<Meets>(pass);
        let _theirs = sender.another::<Meeting>(pass);
    }
}
