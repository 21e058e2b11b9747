//! The acts of a walk, drawn by a number each. `None` where memory was refused.
use crate::given::{called, child, name, text, worker};
use std::process::Abort;
use sup_replica::{Act, Event, MessageText};
use sup_specs::{ChildId, Name};

// Texts that are short, long, and escaped where they are written.
const TEXTS: [&str; 4] = [
    "",
    "again",
    "\"\\\"",
    "~a-text-of-more-bytes-than-the-others-have!",
];

// The child that the number tells, from c10000 on up to the last one.
fn id(rt: &impl AllocGlobal, number: u64, last: u16) -> Option<ChildId> {
    let place = 10000 + number % (last as u64 + 1);
    let id = format!(in rt.alloc(); "c{place}").ok()?;
    child(rt.alloc(), id.as_str())
}

// One of eight names, each with a byte that is escaped.
fn a_name(rt: &impl AllocGlobal, number: u64) -> Option<Name> {
    let place = number % 8;
    let name = format!(in rt.alloc(); "n\"{place}").ok()?;
    called(rt.alloc(), name.as_str())
}

fn a_text(number: u64) -> &'static str {
    TEXTS[(number % 4) as usize]
}

// A stop, or what is sent and what has come.
fn of_mail(
    rt: &(impl Abort + AllocGlobal),
    mail: &MessageText,
    to: &str,
    number: u64,
) -> Option<Act> {
    match number % 8 {
        0 => Some(Act::Stop),
        1 => Some(Act::Event(Event::Push(name(rt, to)))),
        2 | 3 => Some(Act::Event(Event::Ship(name(rt, to)))),
        _ => Some(Act::Event(Event::Deliver(mail.try_clone(rt.alloc()).ok()?))),
    }
}

// What becomes of members, this node and the other one.
fn of_members(rt: &(impl Abort + AllocGlobal), to: &str, number: u64) -> Option<Event> {
    match number % 8 {
        0 => Some(Event::Leave(name(rt, to))),
        1 => Some(Event::Leave(name(rt, "a"))),
        2 => Some(Event::Drain(name(rt, to))),
        3 => Some(Event::Drain(name(rt, "b"))),
        _ => Some(Event::Join(text(rt.alloc(), a_text(number / 8))?)),
    }
}

fn of_names(rt: &impl AllocGlobal, number: u64, last: u16) -> Option<Event> {
    let name = a_name(rt, number / 4)?;
    if number % 4 == 0 {
        Some(Event::Unregister(name))
    } else {
        Some(Event::Register(name, id(rt, number / 32, last)?))
    }
}

fn of_children(rt: &impl AllocGlobal, number: u64, last: u16) -> Option<Event> {
    let id = id(rt, number / 16, last)?;
    match number % 4 {
        0 => Some(Event::Delete(id)),
        1 => {
            let spec = worker(rt.alloc(), a_text(number / 4))?;
            Some(Event::Replace(id, spec))
        }
        _ => {
            let spec = worker(rt.alloc(), a_text(number / 4))?;
            Some(Event::Start(id, spec))
        }
    }
}

/// The act that the number tells, of a node with this mail that writes to another one.
pub(crate) fn drawn(
    rt: &(impl Abort + AllocGlobal),
    mail: &MessageText,
    to: &str,
    number: u64,
    last: u16,
) -> Option<Act> {
    match number % 8 {
        0 => Some(Act::Event(of_members(rt, to, number / 8)?)),
        1 => Some(Act::Event(of_names(rt, number / 8, last)?)),
        2 | 3 | 4 => of_mail(rt, mail, to, number / 8),
        _ => Some(Act::Event(of_children(rt, number / 8, last)?)),
    }
}
