//! What the tests are given.
use std::process::Abort;
use sup_picture::{
    Caption, Change, ChildRun, Log, Mark, Message, Picture, Post, Row, Turn, Way, picture_of,
};
use sup_specs::{ChildId, NodeName};

pub(crate) fn node(rt: &impl Abort, name: &str) -> NodeName {
    NodeName::parse(name).expect(rt, "a node's name")
}

pub(crate) fn child(rt: &(impl Abort + AllocGlobal), id: &str) -> ChildId {
    ChildId::parse(rt.alloc(), id).expect(rt, "a child's id")
}

pub(crate) fn message(rt: &impl Abort, from: &str, number: u64) -> Message {
    Message {
        from: node(rt, from),
        number,
    }
}

pub(crate) fn left(rt: &impl Abort, from: &str, number: u64, to: &str, row: u64) -> Post {
    Post::Left {
        message: message(rt, from, number),
        to: node(rt, to),
        row,
    }
}

pub(crate) fn came(rt: &impl Abort, from: &str, number: u64, at: &str, way: Way, row: u64) -> Post {
    Post::Came {
        message: message(rt, from, number),
        at: node(rt, at),
        way,
        row,
    }
}

/// The run of a child with this number, in its node's first boot.
pub(crate) fn run(rt: &(impl Abort + AllocGlobal), id: &str, k: u64) -> ChildRun {
    ChildRun {
        child: child(rt, id),
        boot: 1,
        k,
    }
}

pub(crate) fn began(rt: &impl Abort, at: &str, run: ChildRun, row: u64) -> Change {
    changed(rt, at, Turn::Began(run), row)
}

pub(crate) fn ended(rt: &impl Abort, at: &str, run: ChildRun, row: u64) -> Change {
    changed(rt, at, Turn::Ended(run), row)
}

pub(crate) fn changed(rt: &impl Abort, at: &str, turn: Turn, row: u64) -> Change {
    Change {
        node: node(rt, at),
        turn,
        row,
    }
}

pub(crate) fn caption(rt: &(impl Abort + AllocGlobal), text: &str) -> Caption {
    let bytes = text.as_bytes().to_vec(rt.alloc()).expect(rt, "room");
    Caption::new(bytes)
}

/// The picture of nodes a and b with one row, of this line, at node a.
pub(crate) fn one_row(rt: &(impl Abort + AllocGlobal), line: &str, said: &str) -> Picture {
    let mut nodes = Vec::new(rt.alloc());
    nodes.push(node(rt, "a")).expect(rt, "room");
    nodes.push(node(rt, "b")).expect(rt, "room");
    let mut rows = Vec::new(rt.alloc());
    let row = Row {
        row: 0,
        line: caption(rt, line),
        said: caption(rt, said),
        mark: Mark::Done(node(rt, "a")),
    };
    rows.push(row).expect(rt, "room");
    let log = Log {
        rows,
        posts: Vec::new(rt.alloc()),
        changes: Vec::new(rt.alloc()),
    };
    picture_of(rt.alloc(), nodes, log).expect(rt, "room")
}
