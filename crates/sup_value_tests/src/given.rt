//! Values of the tests, told by texts. These calls promise nothing: a test knows no more than what it sees when it runs.
//! They end it where there is no such value.
use std::process::Abort;
use sup_specs::{ChildId, Kind, Label, NodeName, Text};

pub(crate) fn node(rt: &impl Abort, name: &str) -> NodeName {
    NodeName::parse(name).expect(rt, "a node's name")
}

pub(crate) fn child_id(rt: &(impl Abort + AllocGlobal), id: &str) -> ChildId {
    ChildId::parse(rt.alloc(), id).expect(rt, "an id")
}

pub(crate) fn kind(rt: &(impl Abort + AllocGlobal), kind: &str) -> Kind {
    Kind::parse(rt.alloc(), kind).expect(rt, "a kind")
}

pub(crate) fn label(rt: &(impl Abort + AllocGlobal), label: &str) -> Label {
    Label::parse(rt.alloc(), label).expect(rt, "a label")
}

pub(crate) fn text(rt: &(impl Abort + AllocGlobal), text: &str) -> Text {
    Text::parse(rt.alloc(), text).expect(rt, "a text")
}

pub(crate) fn repeated(rt: &(impl Abort + AllocGlobal), part: &str, count: usize) -> String {
    part.repeat(rt.alloc(), count).expect(rt, "room")
}
