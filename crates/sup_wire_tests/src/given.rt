//! Texts and values of the tests.
use std::process::Abort;
use sup_specs::{ChildId, ChildSpec, Kind, MemberInfo, NodeName, Restart, Shutdown, Status, Text};

pub(crate) const ACK: &str = "{\"from\":\"b\",\"kind\":\"ack\",\"n\":1,\"to\":\"a\",\"v\":2}";

/// Of a first child, from its sender's first change.
pub(crate) const STARTED: &str = "\
    {\"ctx\":{\"cloud\":[],\"vector\":{\"a\":1}},\"from\":\"a\",\"kind\":\"delta\",\"n\":1,\
    \"rows\":[[\"child\",\"x\",[\"a\",1],{\"arg\":\"\",\"kind\":\"worker\",\
    \"restart\":\"permanent\",\"shutdown\":5000}]],\"to\":\"b\",\"v\":2}";

/// A delta of one child behind another one that the sender knows.
pub(crate) const DELTA: &str = "\
    {\"ctx\":{\"cloud\":[[\"a\",2]],\"vector\":{}},\"from\":\"a\",\"kind\":\"delta\",\"n\":2,\
    \"rows\":[[\"child\",\"y\",[\"a\",2],{\"arg\":\"\",\"kind\":\"worker\",\
    \"restart\":\"permanent\",\"shutdown\":5000}]],\"to\":\"b\",\"v\":2}";

/// Of a member that joined and started a child.
pub(crate) const JOINED: &str = "\
    {\"ctx\":{\"cloud\":[],\"vector\":{\"a\":2}},\"from\":\"a\",\"kind\":\"delta\",\"n\":2,\
    \"rows\":[[\"member\",\"a\",[\"a\",1],{\"label\":\"\",\"status\":\"open\"}],[\"child\",\"web\",\
    [\"a\",2],{\"arg\":\"\",\"kind\":\"worker\",\"restart\":\"permanent\",\"shutdown\":5000}]],\
    \"to\":\"b\",\"v\":2}";

/// Of one that took these in and removed the child.
pub(crate) const REMOVED: &str = "\
    {\"ctx\":{\"cloud\":[],\"vector\":{\"a\":2}},\"from\":\"b\",\"kind\":\"delta\",\"n\":2,\
    \"rows\":[[\"member\",\"a\",[\"a\",1],{\"label\":\"\",\"status\":\"open\"}]],\"to\":\"a\",\
    \"v\":2}";

/// Of the member, which replaced the child meanwhile.
pub(crate) const REPLACED: &str = "\
    {\"ctx\":{\"cloud\":[[\"a\",2],[\"a\",3]],\"vector\":{}},\"from\":\"a\",\"kind\":\"push\",\
    \"rows\":[[\"child\",\"web\",[\"a\",3],{\"arg\":\"x\",\"kind\":\"worker\",\
    \"restart\":\"permanent\",\"shutdown\":5000}]],\"to\":\"b\",\"v\":2}";

/// Of the other one, which joined and drained the member.
pub(crate) const DRAINED: &str = "\
    {\"ctx\":{\"cloud\":[[\"b\",2]],\"vector\":{\"a\":1}},\"from\":\"b\",\"kind\":\"push\",\
    \"rows\":[[\"member\",\"a\",[\"b\",2],{\"label\":\"\",\"status\":\"draining\"}]],\"to\":\"a\",\
    \"v\":2}";

pub(crate) const ACK_OF_JOINED: &str =
    "{\"from\":\"b\",\"kind\":\"ack\",\"n\":2,\"to\":\"a\",\"v\":2}";

pub(crate) const ACK_OF_REMOVED: &str =
    "{\"from\":\"a\",\"kind\":\"ack\",\"n\":2,\"to\":\"b\",\"v\":2}";

pub(crate) const MESSAGES: [&str; 9] = [
    ACK,
    DELTA,
    DRAINED,
    STARTED,
    JOINED,
    REMOVED,
    REPLACED,
    ACK_OF_JOINED,
    ACK_OF_REMOVED,
];

pub(crate) const OPENING: &str = "\
    {\"boot\":1,\"count\":0,\"ctx\":{\"cloud\":[],\"vector\":{}},\"kind\":\"image\",\"node\":\"a\",\
    \"rows\":[],\"v\":2}";

/// The image of a member with a child.
pub(crate) const IMAGE: &str = "\
    {\"boot\":1,\"count\":2,\"ctx\":{\"cloud\":[],\"vector\":{\"a\":2}},\"kind\":\"image\",\
    \"node\":\"a\",\"rows\":[[\"member\",\"a\",[\"a\",1],{\"label\":\"\",\"status\":\"open\"}],\
    [\"child\",\"web\",[\"a\",2],{\"arg\":\"\",\"kind\":\"worker\",\"restart\":\"permanent\",\
    \"shutdown\":5000}]],\"v\":2}";

/// The same image in version 1.
pub(crate) const OLD_IMAGE: &str = "\
    {\"boot\":1,\"count\":2,\"ctx\":{\"cloud\":[],\"vector\":{\"a\":2}},\"kind\":\"image\",\
    \"node\":\"a\",\"rows\":[[\"member\",\"a\",[\"a\",1],{\"label\":\"\"}],[\"child\",\"web\",\
    [\"a\",2],{\"arg\":\"\",\"kind\":\"worker\",\"restart\":\"permanent\",\"shutdown\":5000}]],\
    \"v\":1}";

pub(crate) fn node(rt: &impl Abort, name: &str) -> NodeName {
    NodeName::parse(name).expect(rt, "a node's name")
}

pub(crate) fn try_id(rt: &impl AllocGlobal, id: &str) -> Option<ChildId> {
    ChildId::parse(rt.alloc(), id).ok()
}

/// The specification that a child has where no more than its argument is said of it.
pub(crate) fn try_worker(rt: &impl AllocGlobal, arg: &str) -> Option<ChildSpec> {
    Some(ChildSpec {
        kind: Kind::parse(rt.alloc(), "worker").ok()?,
        arg: Text::parse(rt.alloc(), arg).ok()?,
        restart: Restart::Permanent,
        shutdown: Shutdown::Millis(5000),
    })
}

pub(crate) fn try_unlabelled(rt: &impl AllocGlobal) -> Option<MemberInfo> {
    Some(MemberInfo {
        label: Text::parse(rt.alloc(), "").ok()?,
        status: Status::Open,
    })
}
