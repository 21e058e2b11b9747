//! What the callers are given.
use std::process::Abort;
use sup_replica::{Act, Event};
use sup_specs::{ChildId, ChildSpec, Kind, NodeName, Restart, Shutdown, Text};

pub(crate) fn node(rt: &impl Abort, name: &str) -> NodeName {
    NodeName::parse(name).expect(rt, "a node's name")
}

fn empty(rt: &(impl Abort + AllocGlobal)) -> Text {
    Text::parse(rt.alloc(), "").expect(rt, "an empty text")
}

pub(crate) fn join(rt: &(impl Abort + AllocGlobal)) -> Act {
    Act::Event(Event::Join(empty(rt)))
}

pub(crate) fn child(rt: &(impl Abort + AllocGlobal), id: &str) -> ChildId {
    ChildId::parse(rt.alloc(), id).expect(rt, "a child's id")
}

/// The start of a permanent worker that has 5000 milliseconds to end.
pub(crate) fn start(rt: &(impl Abort + AllocGlobal), id: &str) -> Act {
    let spec = ChildSpec {
        kind: Kind::parse(rt.alloc(), "worker").expect(rt, "a kind"),
        arg: empty(rt),
        restart: Restart::Permanent,
        shutdown: Shutdown::Millis(5000),
    };
    Act::Event(Event::Start(child(rt, id), spec))
}

/// A join, and then the start of this child.
pub(crate) fn acts(rt: &(impl Abort + AllocGlobal), id: &str) -> Vec<Act> {
    vec![in rt.alloc(); join(rt), start(rt, id)].expect(rt, "room")
}
