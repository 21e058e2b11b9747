//! Values of the tests. The calls promise nothing, and end the test where one of a value's fails.
use std::process::Abort;
use sup_causal::Dot;
use sup_local_sup::{Effect, Effects, Incarnation};
use sup_replica::{Done, Dots, Letter, LetterKind, MessageText, Reply};
use sup_specs::{ChildId, ChildSpec, Kind, NodeName, Restart, Shutdown, Text};
use sup_text::answer_text;

pub(crate) fn name(rt: &impl Abort, text: &str) -> NodeName {
    NodeName::parse(text).expect(rt, "a node's name")
}

pub(crate) fn dot(rt: &impl Abort, node: &str, counter: u64) -> Dot {
    Dot {
        node: name(rt, node),
        counter,
    }
}

pub(crate) fn dots(rt: &(impl Abort + AllocGlobal), first: Dot, second: Dot) -> Dots {
    let mut all = Vec::new(rt.alloc());
    all.push(first).expect(rt, "room");
    all.push(second).expect(rt, "room");
    Dots::new(all)
}

fn child(rt: &(impl Abort + AllocGlobal), id: &str) -> ChildId {
    ChildId::parse(rt.alloc(), id).expect(rt, "an id")
}

fn worker(rt: &(impl Abort + AllocGlobal)) -> ChildSpec {
    ChildSpec {
        kind: Kind::parse(rt.alloc(), "worker").expect(rt, "a kind"),
        arg: Text::parse(rt.alloc(), "").expect(rt, "a text"),
        restart: Restart::Permanent,
        shutdown: Shutdown::Millis(5000),
    }
}

pub(crate) fn begins(rt: &(impl Abort + AllocGlobal), id: &str, boot: u64, k: u64) -> Effect {
    Effect::Start {
        id: child(rt, id),
        inc: Incarnation { boot, k },
        spec: worker(rt),
    }
}

pub(crate) fn ends(rt: &(impl Abort + AllocGlobal), id: &str, boot: u64, k: u64) -> Effect {
    Effect::Stop {
        id: child(rt, id),
        inc: Incarnation { boot, k },
    }
}

pub(crate) fn no_effects(rt: &impl AllocGlobal) -> Effects {
    Effects::new(Vec::new(rt.alloc()))
}

pub(crate) fn one_effect(rt: &(impl Abort + AllocGlobal), effect: Effect) -> Effects {
    let mut all = Vec::new(rt.alloc());
    all.push(effect).expect(rt, "room");
    Effects::new(all)
}

pub(crate) fn two_effects(
    rt: &(impl Abort + AllocGlobal),
    first: Effect,
    second: Effect,
) -> Effects {
    let mut all = Vec::new(rt.alloc());
    all.push(first).expect(rt, "room");
    all.push(second).expect(rt, "room");
    Effects::new(all)
}

// No line shows a letter's bytes.
pub(crate) fn letter(
    rt: &(impl Abort + AllocGlobal),
    to: &str,
    kind: LetterKind,
) -> Option<Letter> {
    Some(Letter {
        to: name(rt, to),
        kind,
        bytes: MessageText::new(Vec::new(rt.alloc())),
    })
}

/// Expects these lines of an answer of this node, and of its copy.
pub(crate) fn expect_lines(
    rt: &(impl Abort + AllocGlobal),
    at: &str,
    done: Done,
    number: Option<u64>,
    lines: &str,
) {
    let text = answer_text(rt.alloc(), &name(rt, at), &done, number).expect(rt, "room");
    assert_eq!(rt; text.as_str(), lines, "an answer");
    let copy = done.try_clone(rt.alloc()).expect(rt, "room");
    let text = answer_text(rt.alloc(), &name(rt, at), &copy, number).expect(rt, "room");
    assert_eq!(rt; text.as_str(), lines, "a copy of an answer");
}

/// Expects this line of a reply alone.
pub(crate) fn expect_line(rt: &(impl Abort + AllocGlobal), reply: Reply, line: &str) {
    let done = Done {
        reply,
        effects: no_effects(rt),
        out: None,
    };
    expect_lines(rt, "a", done, None, line);
}
