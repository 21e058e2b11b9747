//! All that can be seen of a world: what its nodes show, keep and know of one another, and the messages.
use crate::told::put;
use std::process::Abort;
use std::str::from_utf8;
use sup_keeper::Keeper;
use sup_node::Node;
use sup_placement::FlatWeigh;
use sup_specs::NodeName;
use sup_test_texts::shown;
use sup_world::World;

/// What these nodes show and keep, what they hold for others, and the first 19 messages that each of them sent.
pub(crate) fn seen(
    rt: &(impl Abort + AllocGlobal),
    world: &World<FlatWeigh>,
    names: &[NodeName],
) -> String {
    let mut text = String::new(rt.alloc());
    for name in names {
        put_node(rt, &mut text, world, name, names);
        put_messages(rt, &mut text, world, name);
    }
    text
}

fn put_node(
    rt: &(impl Abort + AllocGlobal),
    text: &mut String,
    world: &World<FlatWeigh>,
    name: &NodeName,
    peers: &[NodeName],
) {
    let Some(station) = world.station(name) else {
        panic!(rt; "no such node")
    };
    let lines = shown(rt.alloc(), name, station.node()).expect(rt, "room");
    put(rt, text, lines.as_str());
    put_bytes(rt, text, station.keeper().stored());
    if let Some(node) = station.node() {
        put_known(rt, text, node, peers);
    }
}

// How many deltas a node holds, and what each peer has acknowledged.
fn put_known(
    rt: &(impl Abort + AllocGlobal),
    text: &mut String,
    node: &Node<FlatWeigh>,
    peers: &[NodeName],
) {
    put_number(rt, text, node.held() as u64);
    for peer in peers {
        put_number(rt, text, node.acknowledged(peer));
    }
}

fn put_messages(
    rt: &(impl Abort + AllocGlobal),
    text: &mut String,
    world: &World<FlatWeigh>,
    name: &NodeName,
) {
    for k in 1..20u64 {
        if let Some(bytes) = world.message(name, k) {
            put_bytes(rt, text, bytes);
        }
    }
}

fn put_bytes(rt: &impl Abort, text: &mut String, bytes: &[u8]) {
    let Ok(line) = from_utf8(bytes) else {
        panic!(rt; "no text")
    };
    put(rt, text, line);
    put(rt, text, "\n");
}

fn put_number(rt: &(impl Abort + AllocGlobal), text: &mut String, number: u64) {
    let line = format!(in rt.alloc(); "{number}\n")
        .or_else(|_| format!(in rt.alloc(); "{number}\n"))
        .expect(rt, "room");
    put(rt, text, line.as_str());
}

/// How often the keeper of a node has failed.
pub(crate) fn failures(rt: &impl Abort, world: &World<FlatWeigh>, name: &NodeName) -> u64 {
    match world.station(name) {
        Some(station) => station.keeper().failures(),
        None => panic!(rt; "no such node"),
    }
}

/// The image that a node's keeper has.
pub(crate) fn stored<'a>(
    rt: &impl Abort,
    world: &'a World<FlatWeigh>,
    name: &NodeName,
) -> &'a [u8] {
    match world.station(name) {
        Some(station) => station.keeper().stored(),
        None => panic!(rt; "no such node"),
    }
}

/// How many deltas a node holds; none where it is stopped.
pub(crate) fn held(rt: &impl Abort, world: &World<FlatWeigh>, name: &NodeName) -> Option<usize> {
    match world.station(name) {
        Some(station) => station.node().map(|node| node.held()),
        None => panic!(rt; "no such node"),
    }
}

/// Expects this text of a node's k-th message, or that there is none.
pub(crate) fn expect_message(
    rt: &impl Abort,
    world: &World<FlatWeigh>,
    from: &NodeName,
    k: u64,
    wanted: Option<&str>,
) {
    let bytes = world.message(from, k);
    assert!(rt; bytes == wanted.map(|text| text.as_bytes()), "{k}");
}
