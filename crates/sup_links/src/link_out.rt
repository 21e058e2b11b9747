//! The end of a link at which messages come out.
ghost use Rattle.std.specs.Prelude.{◌≡◌, ◌++◌, [], true, false, if◌then◌else◌};
ghost use Rattle.sup_links.specs.Texts.{taken_said, messages, on_way, mark};

use crate::channel::Parcel;
use crate::link_in::Sent;
use crate::pipe::Exit;
use std::sync::Wait;
use thiserror::Error;

/// The other end of the link is gone.
#[derive(Clone, Copy, Debug, PartialEq, Eq, Error)]
#[error("the link is closed")]
pub struct Closed;

/// Where messages come out.
#[derive(Drop)]
pub struct LinkOut {
    ended: bool,
    exit: Exit,
    // The end mark was taken behind all messages, and only where `ended` says so.
    ghost marked: { taken_said exit.pass ≡ on_way (messages (taken_said exit.pass)) ++ (if ended then mark else []) },
}

impl LinkOut {
    ghost use Rattle.std.specs.Prelude.{◌≡◌, [], true, false, Ok, Err, Some, None, IfOk, OnErr, MatchOption};
    ghost use Rattle.crossbeam_channel.specs.Ends.{receives_on};
    ghost use Rattle.sup_links.specs.Image.{image};
    ghost use Rattle.sup_links.specs.Texts.{IsFront, IsMessageAdded};
    ghost use Rattle.sup_links.specs.Ends.{taken_of, has_ended, SameOut, IsSentTo, sent_script, sent_put};

    pub(crate) fn new(exit: Exit) -> LinkOut
        requires { taken_said exit.pass ≡ [] }
        ensures end { receives_on result.exit.end ≡ receives_on exit.end }
        ensures taken { taken_of result ≡ [] }
        ensures ended { has_ended result ≡ false }
    {
        LinkOut { ended: false, exit }
    }

    /// The next message; `None` at the end mark and from then on. It may wait for one.
    ///
    /// # Errors
    ///
    /// Where the other end is gone without an end mark.
    pub fn take<R: Wait>(&mut self, rt: &R) -> Result<Option<Vec<u8>>, Closed>
        ensures link { SameOut self.old self.new }
        // A message.
        ensures taken { IfOk result (λ given. IsMessageAdded (taken_of self.old) (taken_of self.new) given) }
        ensures goes_on { IfOk result (λ given. MatchOption given (has_ended self.new ≡ true) (λ _. has_ended self.new ≡ false)) }
        // None.
        ensures stays_ended { has_ended self.old ≡ true → result ≡ Ok None }
        // Closed.
        ensures closed { OnErr result ((taken_of self.new ≡ taken_of self.old) × (has_ended self.new ≡ false)) }
    {
        if self.ended {
            return Ok(None);
        }
        match self.exit.take(rt) {
            Some(Parcel::Text(text)) => Ok(Some(text)),
            Some(Parcel::End) => {
                self.ended = true;
                Ok(None)
            }
            None => Err(Closed),
        }
    }

    /// Both ends of one link meet: what was taken is a beginning of what the script lets through of the list put, and all of it where
    /// `take` has answered None.
    pub fn meet(&mut self, other: Sent)
        requires { IsSentTo other self.old }
        ensures link { SameOut self.old self.new }
        ensures keeps { taken_of self.new ≡ taken_of self.old }
        ensures ended { has_ended self.new ≡ has_ended self.old }
        ensures front { IsFront (taken_of self.new) (image (sent_script other) (sent_put other)) }
        ensures whole { has_ended self.new ≡ true → taken_of self.new ≡ image (sent_script other) (sent_put other) }
    {
        self.exit.meet(other.into_entry());
    }
}
