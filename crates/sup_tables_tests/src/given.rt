//! Values of the tests, told by texts and numbers. These calls promise nothing: a test knows no more than what it sees
//! when it runs. They end it where there is no such value.
use std::process::Abort;
use sup_causal::Dot;
use sup_specs::{
    ChildId, ChildSpec, Kind, MemberInfo, Name, NodeName, Restart, Shutdown, Status, Text,
};

pub(crate) fn node(rt: &impl Abort, name: &str) -> NodeName {
    NodeName::parse(name).expect(rt, "a node's name")
}

pub(crate) fn dot(rt: &impl Abort, name: &str, counter: u64) -> Dot {
    Dot {
        counter,
        node: node(rt, name),
    }
}

pub(crate) fn dots(rt: &(impl Abort + AllocGlobal), counters: &[(&str, u64)]) -> Vec<Dot> {
    let mut dots = Vec::new(rt.alloc());
    for (name, counter) in counters {
        dots.push(dot(rt, name, *counter)).expect(rt, "room");
    }
    dots
}

pub(crate) fn child_id(rt: &(impl Abort + AllocGlobal), id: &str) -> ChildId {
    ChildId::parse(rt.alloc(), id).expect(rt, "an id")
}

pub(crate) fn registered(rt: &(impl Abort + AllocGlobal), name: &str) -> Name {
    Name::parse(rt.alloc(), name).expect(rt, "a name")
}

fn text(rt: &(impl Abort + AllocGlobal), text: &str) -> Text {
    Text::parse(rt.alloc(), text).expect(rt, "a text")
}

pub(crate) fn spec(rt: &(impl Abort + AllocGlobal), kind: &str) -> ChildSpec {
    ChildSpec {
        kind: Kind::parse(rt.alloc(), kind).expect(rt, "a kind"),
        arg: text(rt, ""),
        restart: Restart::Permanent,
        shutdown: Shutdown::Millis(5000),
    }
}

pub(crate) fn labelled(rt: &(impl Abort + AllocGlobal), label: &str) -> MemberInfo {
    MemberInfo {
        label: text(rt, label),
        status: Status::Open,
    }
}

pub(crate) fn draining(rt: &(impl Abort + AllocGlobal), label: &str) -> MemberInfo {
    MemberInfo {
        label: text(rt, label),
        status: Status::Draining,
    }
}
