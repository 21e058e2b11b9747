//! Short words for what the tests are given. Where memory is refused a call is made once more.
use std::process::Abort;
use sup_lines::line::read_line;
use sup_lines::{Line, Script, read_script};
use sup_model::Step;
use sup_placement::FlatWeigh;
use sup_replica::{Config, MessageText};
use sup_specs::{Name, NodeName};
use sup_world::World;

pub(crate) fn name(rt: &impl Abort, text: &str) -> NodeName {
    NodeName::parse(text).expect(rt, "a node's name")
}

/// The names of these words.
pub(crate) fn names(rt: &(impl Abort + AllocGlobal), words: &[&str]) -> Vec<NodeName> {
    let mut read = Vec::new(rt.alloc());
    for word in words {
        push(rt, &mut read, name(rt, word));
    }
    read
}

fn push<T: Drop>(rt: &impl Abort, list: &mut Vec<T>, item: T) {
    if let Err(failed) = list.push(item) {
        assert!(rt; list.push(failed.value).is_ok(), "room");
    }
}

pub(crate) fn called(rt: &(impl Abort + AllocGlobal), text: &str) -> Name {
    Name::parse(rt.alloc(), text)
        .or_else(|_| Name::parse(rt.alloc(), text))
        .expect(rt, "a name")
}

pub(crate) fn script(rt: &(impl Abort + AllocGlobal), text: &str) -> Script {
    read_script(rt.alloc(), text.as_bytes())
        .or_else(|_| read_script(rt.alloc(), text.as_bytes()))
        .expect(rt, "a script")
}

fn line(rt: &(impl Abort + AllocGlobal), text: &str) -> Line {
    read_line(rt.alloc(), text.as_bytes())
        .or_else(|_| read_line(rt.alloc(), text.as_bytes()))
        .expect(rt, "a line")
}

/// The step of a line.
pub(crate) fn step(rt: &(impl Abort + AllocGlobal), text: &str) -> Step {
    match line(rt, text) {
        Line::Step(step) => step,
        _ => panic!(rt; "no step"),
    }
}

/// The steps of these lines.
pub(crate) fn steps(rt: &(impl Abort + AllocGlobal), text: &str) -> Vec<Step> {
    let mut read = Vec::new(rt.alloc());
    for line in text.lines() {
        push(rt, &mut read, step(rt, line));
    }
    read
}

/// Bytes that come to a node.
pub(crate) fn raw(rt: &(impl Abort + AllocGlobal), at: &str, bytes: &[u8]) -> Step {
    let copy = bytes
        .to_vec(rt.alloc())
        .or_else(|_| bytes.to_vec(rt.alloc()))
        .expect(rt, "room");
    Step::Raw {
        at: name(rt, at),
        bytes: MessageText::new(copy),
    }
}

/// A world of these nodes, each with the settings that it has by itself.
pub(crate) fn world_of(rt: &(impl Abort + AllocGlobal), names: &[NodeName]) -> World<FlatWeigh> {
    World::new(rt.alloc(), names, Config::default(), FlatWeigh)
        .or_else(|_| World::new(rt.alloc(), names, Config::default(), FlatWeigh))
        .expect(rt, "a world")
}

/// The same of nodes of these names.
pub(crate) fn world(rt: &(impl Abort + AllocGlobal), words: &[&str]) -> World<FlatWeigh> {
    world_of(rt, names(rt, words).as_slice())
}
