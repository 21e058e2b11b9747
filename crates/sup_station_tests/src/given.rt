//! Short words for what the tests are given. `None` where memory was refused.
use std::alloc::Global;
use std::process::Abort;
use sup_replica::MessageText;
use sup_specs::{ChildId, ChildSpec, Kind, Name, NodeName, Restart, Shutdown, Text};

pub(crate) fn name(rt: &impl Abort, text: &str) -> NodeName {
    NodeName::parse(text).expect(rt, "a node's name")
}

pub(crate) fn child(alloc: Global, id: &str) -> Option<ChildId> {
    ChildId::parse(alloc, id).ok()
}

pub(crate) fn called(alloc: Global, text: &str) -> Option<Name> {
    Name::parse(alloc, text).ok()
}

pub(crate) fn text(alloc: Global, text: &str) -> Option<Text> {
    Text::parse(alloc, text).ok()
}

/// A permanent worker that has 5000 milliseconds to end.
pub(crate) fn worker(alloc: Global, arg: &str) -> Option<ChildSpec> {
    Some(ChildSpec {
        kind: Kind::parse(alloc, "worker").ok()?,
        arg: text(alloc, arg)?,
        restart: Restart::Permanent,
        shutdown: Shutdown::Millis(5000),
    })
}

pub(crate) fn message(alloc: Global, bytes: &[u8]) -> Option<MessageText> {
    Some(MessageText::new(bytes.to_vec(alloc).ok()?))
}
