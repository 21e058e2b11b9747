//! A line of a row, and the act that it tells.
use crate::given::{called, child, message, name, text, worker};
use std::process::Abort;
use sup_local_sup::Incarnation;
use sup_replica::{Act, Event};
use sup_specs::ExitReason;

/// A verb, a node, and up to two words more. The node is the one where it happens, of `deliver` the sender.
#[derive(Clone, Copy)]
pub(crate) struct Line<'a> {
    pub(crate) verb: &'a str,
    pub(crate) at: &'a str,
    pub(crate) word: &'a str,
    pub(crate) option: &'a str,
    /// The act's save fails, if it makes one.
    pub(crate) fails: bool,
}

impl<'a> Line<'a> {
    pub(crate) fn of(line: &'a str) -> Line<'a> {
        let mut words = line.split(' ');
        Line {
            verb: words.next().unwrap_or(""),
            at: words.next().unwrap_or(""),
            word: words.next().unwrap_or(""),
            option: words.next().unwrap_or(""),
            fails: line.ends_with("!fail"),
        }
    }

    /// The act of a line that brings no message which a station sent; none where memory was refused.
    pub(crate) fn act(&self, rt: &(impl Abort + AllocGlobal)) -> Option<Act> {
        match self.verb {
            "stop" => Some(Act::Stop),
            "restart" => Some(Act::Restart),
            _ => Some(Act::Event(self.event(rt)?)),
        }
    }

    fn event(&self, rt: &(impl Abort + AllocGlobal)) -> Option<Event> {
        let alloc = rt.alloc();
        match self.verb {
            "join" => Some(Event::Join(text(alloc, "")?)),
            "leave" => Some(Event::Leave(name(rt, self.word))),
            "drain" => Some(Event::Drain(name(rt, self.word))),
            "delete" => Some(Event::Delete(child(alloc, self.word)?)),
            "ship" => Some(Event::Ship(name(rt, self.word))),
            "push" => Some(Event::Push(name(rt, self.word))),
            "replace" => {
                let arg = self.option.strip_prefix("arg=").unwrap_or("");
                Some(Event::Replace(child(alloc, self.word)?, worker(alloc, arg)?))
            }
            "crash" => Some(Event::Exit {
                id: child(alloc, self.word)?,
                inc: Incarnation {
                    boot: 1,
                    k: self.option.parse::<u64>().unwrap_or(0),
                },
                reason: ExitReason::Crash,
            }),
            "bytes" => Some(Event::Deliver(message(alloc, self.word.as_bytes())?)),
            "register" => {
                let id = child(alloc, self.option)?;
                Some(Event::Register(called(alloc, self.word)?, id))
            }
            "unregister" => Some(Event::Unregister(called(alloc, self.word)?)),
            _ => {
                assert!(rt; self.verb == "start");
                Some(Event::Start(child(alloc, self.word)?, worker(alloc, "")?))
            }
        }
    }
}
