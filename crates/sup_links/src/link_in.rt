//! The end of a link at which messages go in.
ghost use Rattle.std.specs.Prelude.{◌≡◌, ◌+◌, ◌++◌, [], false, min, length};
ghost use Rattle.sup_links.specs.Image.{image, held_of};
ghost use Rattle.sup_links.specs.Waiting.{waiting};
ghost use Rattle.sup_links.specs.Texts.{put_said, on_way, mark, IsFront};
ghost use Rattle.sup_links.specs.Sent.{sent_of};

use crate::channel::Parcel;
use crate::copies::make_copies;
use crate::held::Held;
use crate::images::verdict_at;
use crate::log::Log;
use crate::pipe::Entry;
use crate::script::LinkScript;
use crate::sending::send_all;
use std::alloc::{AllocError, Global};
use std::sync::Wait;
use thiserror::Error;

/// Why a message was not taken in. The other end has `Closed` alone, since a take needs no memory.
#[derive(Clone, Copy, Debug, PartialEq, Eq, Error)]
pub enum PutFault {
    #[error("the link is closed")]
    Closed,
    #[error("out of memory")]
    OutOfMemory,
}

impl From<AllocError> for PutFault {
    ghost use Rattle.std.specs.Prelude.{◌≡◌};
    ghost use Rattle.sup_links.specs.declared.link_in.PutFault.TheVariants.{OutOfMemory};

    ghost from_gives = { λ _ f. f ≡ OutOfMemory };

    fn from(_error: AllocError) -> PutFault {
        PutFault::OutOfMemory
    }
}

// One verdict more is spent, as long as there are any.
fn spend(spent: usize, of: usize) -> usize
    ensures { result ≡ min (spent + 1) of }
{
    if spent < of { spent + 1 } else { of }
}

/// Where messages go in.
#[derive(Drop)]
pub struct LinkIn {
    script: LinkScript,
    // How many verdicts are spent.
    spent: usize,
    held: Vec<Held>,
    closed: bool,
    entry: Entry,
    // What was put, accepted or first answered Closed. It takes no memory.
    log: Log<Vec<u8>, ()>,
    alloc: Global,
    // The verdicts spent are those of the messages put, as far as there are any.
    ghost counted: { spent ≡ min (length (sent_of log)) (length script.0.items) },
    // Until the link closes, those wait that the definition holds, and what went is the image.
    ghost waits: { closed ≡ false → waiting held.items ≡ held_of script.0.items (sent_of log) },
    ghost went: { closed ≡ false → put_said entry.pass ≡ on_way (image script.0.items (sent_of log)) },
    // What went is a beginning of the image and the end mark behind it.
    ghost begins: { IsFront (put_said entry.pass) (on_way (image script.0.items (sent_of log)) ++ mark) },
}

/// An end at which all was put.
#[derive(Drop)]
pub struct Sent {
    script: LinkScript,
    entry: Entry,
    log: Log<Vec<u8>, ()>,
    ghost begins: { IsFront (put_said entry.pass) (on_way (image script.0.items (sent_of log)) ++ mark) },
}

impl LinkIn {
    ghost use Rattle.std.specs.Prelude.{◌≡◌, ◌++◌, ◌∷◌, [], true, false, Ok, Err, OnOk};
    ghost use Rattle.crossbeam_channel.specs.Ends.{sends_on};
    ghost use Rattle.sup_links.specs.Ends.{script_of, put_of, is_closed, SameIn, IsSentOf, sent_script, sent_put};

    pub(crate) fn new(alloc: Global, script: LinkScript, entry: Entry) -> LinkIn
        requires { put_said entry.pass ≡ [] }
        ensures end { sends_on result.entry.end ≡ sends_on entry.end }
        ensures script { script_of result ≡ script.0.items }
        ensures put { put_of result ≡ [] }
        ensures open { is_closed result ≡ false }
    {
        LinkIn {
            script,
            spent: 0,
            held: Vec::new(alloc),
            closed: false,
            entry,
            log: Log::new(),
            alloc,
        }
    }

    /// Puts a message in. It has the next verdict of the script, and goes through, or not, as that says; then each message goes whose hold
    /// ends here. It may wait for room.
    ///
    /// # Errors
    ///
    /// `Closed` where a message that was to go found the other end gone, and from then on. `OutOfMemory` where memory was refused: then
    /// nothing was put, and the link stays open.
    pub fn put<R: Wait>(&mut self, rt: &R, text: Vec<u8>) -> Result<(), PutFault>
        ensures link { SameIn self.old self.new }
        ensures script { script_of self.new ≡ script_of self.old }
        // Accepted.
        ensures accepted { OnOk result (put_of self.new ≡ put_of self.old ++ text.items ∷ []) }
        ensures open { OnOk result (is_closed self.new ≡ false) }
        // Closed.
        ensures first_closed { result ≡ Err PutFault.Closed → is_closed self.old ≡ false → put_of self.new ≡ put_of self.old ++ text.items ∷ [] }
        ensures closed { result ≡ Err PutFault.Closed → is_closed self.new ≡ true }
        ensures stays_closed { is_closed self.old ≡ true → result ≡ Err PutFault.Closed }
        ensures later_closed { is_closed self.old ≡ true → self.new ≡ self.old }
        // Out of memory.
        ensures refused { result ≡ Err PutFault.OutOfMemory → put_of self.new ≡ put_of self.old }
        ensures still_open { result ≡ Err PutFault.OutOfMemory → is_closed self.new ≡ false }
    {
        if self.closed {
            return Err(PutFault::Closed);
        }
        let log = self.log.and(&text, &());
        let verdict = verdict_at(&self.script, self.spent);
        // What may be refused comes before the first change.
        let copies = make_copies(self.alloc, &mut self.held, verdict, text)?;
        self.log = log;
        self.spent = spend(self.spent, self.script.0.len());
        match send_all(self.alloc, &mut self.entry, rt, copies, &mut self.held) {
            Ok(()) => Ok(()),
            Err(_) => {
                self.closed = true;
                Err(PutFault::Closed)
            }
        }
    }

    /// Ends the link: behind what was sent the other end finds the mark that nothing more comes. What is still held is lost. It may wait
    /// for room.
    pub fn end<R: Wait>(self, rt: &R) -> Sent
        ensures link { IsSentOf result self }
        ensures script { sent_script result ≡ script_of self }
        ensures put { sent_put result ≡ put_of self }
    {
        let LinkIn {
            script,
            spent: _,
            held: _,
            closed,
            mut entry,
            log,
            alloc: _,
        } = self;
        if !closed {
            let _ = entry.put(rt, Parcel::End);
        }
        Sent { script, entry, log }
    }
}

impl Sent {
    ghost use Rattle.std.specs.Prelude.{◌≡◌, ◌++◌};
    ghost use Rattle.crossbeam_channel.specs.Ends.{sends_on};
    ghost use Rattle.sup_links.specs.Ends.{sent_script, sent_put};

    pub(crate) fn into_entry(self) -> Entry
        ensures end { sends_on result.end ≡ sends_on self.entry.end }
        ensures front { IsFront (put_said result.pass) (on_way (image (sent_script self) (sent_put self)) ++ mark) }
    {
        let Sent {
            script: _,
            entry,
            log: _,
        } = self;
        entry
    }
}
