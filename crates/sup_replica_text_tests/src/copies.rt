//! Copies of acts, where there is room for them. Those of answers are printed in the tests of
//! texts.
use std::process::Abort;
use sup_local_sup::Incarnation;
use sup_replica::{Act, Event, MessageText};
use sup_specs::{ChildId, ChildSpec, ExitReason, Kind, Name, NodeName, Restart, Shutdown, Text};

fn child(rt: &(impl Abort + AllocGlobal), id: &str) -> ChildId {
    ChildId::parse(rt.alloc(), id).expect(rt, "an id")
}

fn text(rt: &(impl Abort + AllocGlobal), bytes: &str) -> Text {
    Text::parse(rt.alloc(), bytes).expect(rt, "a text")
}

// The copy of an event, as that of its act.
fn copy(rt: &(impl Abort + AllocGlobal), event: Event) -> Option<Event> {
    match Act::Event(event).try_clone(rt.alloc()).expect(rt, "room") {
        Act::Event(event) => Some(event),
        _ => None,
    }
}

#[test]
fn a_start_is_copied_with_its_specification(rt: HostRuntime) {
    let spec = ChildSpec {
        kind: Kind::parse(rt.alloc(), "http").expect(&rt, "a kind"),
        arg: text(&rt, "port=80"),
        restart: Restart::Transient,
        shutdown: Shutdown::Infinity,
    };
    match copy(&rt, Event::Start(child(&rt, "web"), spec)) {
        Some(Event::Start(id, spec)) => {
            assert!(rt; id.as_str() == "web");
            assert!(rt; spec.kind.as_str() == "http");
            assert!(rt; spec.arg.as_str() == "port=80");
            assert!(rt; spec.restart == Restart::Transient);
        }
        _ => assert!(rt; false),
    }
}

#[test]
fn an_exit_is_copied_with_its_incarnation(rt: HostRuntime) {
    let event = Event::Exit {
        id: child(&rt, "web"),
        inc: Incarnation { boot: 2, k: 7 },
        reason: ExitReason::Crash,
    };
    match copy(&rt, event) {
        Some(Event::Exit { id, inc, reason }) => {
            assert!(rt; id.as_str() == "web");
            assert!(rt; inc.boot == 2 && inc.k == 7);
            assert!(rt; reason == ExitReason::Crash);
        }
        _ => assert!(rt; false),
    }
}

#[test]
fn a_registration_is_copied_with_both_names(rt: HostRuntime) {
    let name = Name::parse(rt.alloc(), "www").expect(&rt, "a name");
    match copy(&rt, Event::Register(name, child(&rt, "web"))) {
        Some(Event::Register(name, id)) => {
            assert!(rt; name.as_str() == "www");
            assert!(rt; id.as_str() == "web");
        }
        _ => assert!(rt; false),
    }
}

// Whether it's the drain of this member.
fn is_drain_of(event: &Event, member: &NodeName) -> bool {
    match event {
        Event::Drain(drained) => drained.cmp(member).is_eq(),
        _ => false,
    }
}

#[test]
fn a_drain_is_copied_with_its_member(rt: HostRuntime) {
    let member = NodeName::parse("b").expect(&rt, "a node's name");
    match copy(&rt, Event::Drain(member)) {
        Some(copied) => assert!(rt; is_drain_of(&copied, &member)),
        None => assert!(rt; false),
    }
}

#[test]
fn bytes_are_copied(rt: HostRuntime) {
    let mut bytes = Vec::new(rt.alloc());
    bytes.extend_from_slice(b"{}").expect(&rt, "room");
    match copy(&rt, Event::Deliver(MessageText::new(bytes))) {
        Some(Event::Deliver(bytes)) => assert!(rt; bytes.as_slice() == b"{}".as_slice()),
        _ => assert!(rt; false),
    }
}

#[test]
fn a_stop_and_a_restart_are_copied_as_what_they_are(rt: HostRuntime) {
    match Act::Stop.try_clone(rt.alloc()).expect(&rt, "room") {
        Act::Stop => {}
        _ => assert!(rt; false),
    }
    match Act::Restart.try_clone(rt.alloc()).expect(&rt, "room") {
        Act::Restart => {}
        _ => assert!(rt; false),
    }
}
