//! What goes out at one put: the copies of its message, and then those whose hold ends there.
ghost use Rattle.std.specs.Prelude.{◌≡◌, ◌++◌, ◌∷◌, [], List, OnOk, MatchResult};
ghost use Rattle.sup_links.specs.Waiting.{waiting, counted, due, kept};
ghost use Rattle.sup_links.specs.Going.{going};
ghost use Rattle.sup_links.specs.Texts.{Bytes, put_said, on_way};
ghost use Rattle.sup_links.specs.Sending.{Sends};

use crate::channel::Parcel;
use crate::copies::Copies;
use crate::held::{Held, count_down, keep_waiting};
use crate::link_out::Closed;
use crate::pipe::Entry;
use std::alloc::Global;
use std::mem::replace;
use std::sync::Wait;

#[tactic(auto, using(crate::proofs::TextLaws::said_more))]
pub fn send<R: Wait>(entry: &mut Entry, rt: &R, text: Vec<u8>) -> Result<(), Closed>
    ensures end { entry.new.end ≡ entry.old.end }
    ensures put { Sends result (put_said entry.old.pass) (put_said entry.new.pass) (text.items ∷ []) }
{
    match entry.put(rt, Parcel::Text(text)) {
        Ok(()) => Ok(()),
        Err(_) => Err(Closed),
    }
}

#[tactic(auto, using(crate::proofs::TextLaws::said_more))]
fn send_copies<R: Wait>(entry: &mut Entry, rt: &R, copies: Copies) -> Result<(), Closed>
    ensures end { entry.new.end ≡ entry.old.end }
    ensures put { Sends result (put_said entry.old.pass) (put_said entry.new.pass) (going copies) }
{
    match copies {
        Copies::Nothing => Ok(()),
        Copies::One(text) => send(entry, rt, text),
        Copies::Two(first, second) => {
            send(entry, rt, first)?;
            send(entry, rt, second)
        }
    }
}

// Each message that waits no more goes, in the order in which they were put, and leaves its place empty.
fn send_due<R: Wait>(
    alloc: Global,
    entry: &mut Entry,
    rt: &R,
    held: &mut Vec<Held>,
) -> Result<(), Closed>
    ensures end { entry.new.end ≡ entry.old.end }
    ensures put { Sends result (put_said entry.old.pass) (put_said entry.new.pass) (due (waiting held.old.items)) }
    ensures others { OnOk result (kept (waiting held.new.items) ≡ kept (waiting held.old.items)) }
{
    for message in held.iter_mut() {
        if message.left == 0 {
            send(entry, rt, replace(&mut message.text, Vec::new(alloc)))?;
        }
    }
    Ok(())
}

// The copies go, and behind them each message whose hold ends here.
pub fn send_all<R: Wait>(
    alloc: Global,
    entry: &mut Entry,
    rt: &R,
    copies: Copies,
    held: &mut Vec<Held>,
) -> Result<(), Closed>
    ensures end { entry.new.end ≡ entry.old.end }
    ensures put { Sends result (put_said entry.old.pass) (put_said entry.new.pass) (going copies ++ due (counted (waiting held.old.items))) }
    ensures others { OnOk result (waiting held.new.items ≡ kept (counted (waiting held.old.items))) }
{
    send_copies(entry, rt, copies)?;
    count_down(held);
    send_due(alloc, entry, rt, held)?;
    keep_waiting(held);
    Ok(())
}
