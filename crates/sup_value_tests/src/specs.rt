//! Names, ids, texts and specifications: what their contracts leave open, and that each call can succeed.
use crate::given::{child_id, kind, label, node, repeated, text};
use std::cmp::Ordering;
use std::collections::HashSet;
use std::fmt::Display;
use std::process::Abort;
use sup_specs::{
    ChildId, ChildSpec, ExitReason, Kind, Label, MAX, MemberInfo, Name, NodeName, Plain,
    ReasonFault, Restart, Shutdown, Status, Text, TextFault,
};

type Fault = Option<TextFault>;

// Expects a text to be refused as a node's name with this fault, or taken.
fn expect_node_fault(rt: &impl Abort, text: &str, fault: Fault) {
    assert!(rt; NodeName::parse(text).err() == fault, "at {text}");
}

// Expects a text to be refused as a text with this fault, or taken.
fn expect_text_fault(rt: &(impl Abort + AllocGlobal), text: &str, fault: Fault) {
    assert!(rt; Text::parse(rt.alloc(), text).err() == fault);
}

// Why ids, names, kinds and labels refuse a text.
fn faults(rt: &impl AllocGlobal, text: &str) -> [Fault; 4] {
    [
        ChildId::parse(rt.alloc(), text).err(),
        Name::parse(rt.alloc(), text).err(),
        Kind::parse(rt.alloc(), text).err(),
        Label::parse(rt.alloc(), text).err(),
    ]
}

// Expects a text to be refused as an id, a name, a kind and a label with this fault, or taken.
fn expect_fault(rt: &(impl Abort + AllocGlobal), text: &str, fault: Fault) {
    assert!(rt; faults(rt, text) == [fault; 4], "at {text}");
}

#[test]
fn a_node_name_has_1_to_64_bytes_of_its_alphabet(rt: HostRuntime) {
    for (part, count, fault) in [
        ("", 1, Some(TextFault::Empty)),
        ("abcdefghijklmnopqrstuvwxyz0123456789_-", 1, None),
        ("a.b", 1, Some(TextFault::BadByte(1))),
        ("A", 1, Some(TextFault::BadByte(0))),
        ("a b c", 1, Some(TextFault::BadByte(1))),
        ("a", 64, None),
        ("a", 65, Some(TextFault::TooLong)),
        (".", 65, Some(TextFault::TooLong)),
    ] {
        expect_node_fault(&rt, &repeated(&rt, part, count), fault);
    }
}

#[test]
fn ids_names_kinds_and_labels_have_1_to_128_visible_bytes(rt: HostRuntime) {
    for (part, count, fault) in [
        ("", 1, Some(TextFault::Empty)),
        ("!", 1, None),
        ("a b", 1, Some(TextFault::BadByte(1))),
        ("ab\n", 1, Some(TextFault::BadByte(2))),
        ("\x7f", 1, Some(TextFault::BadByte(0))),
        ("~", 128, None),
        ("~", 129, Some(TextFault::TooLong)),
        (" ", 129, Some(TextFault::TooLong)),
    ] {
        expect_fault(&rt, &repeated(&rt, part, count), fault);
    }
}

#[test]
fn a_text_has_0_to_1024_bytes(rt: HostRuntime) {
    for (count, fault) in [(0, None), (1024, None), (1025, Some(TextFault::TooLong))] {
        expect_text_fault(&rt, &repeated(&rt, "x", count), fault);
    }
}

#[test]
fn the_greatest_number_is_one_below_2_to_the_53(rt: HostRuntime) {
    assert!(rt; MAX == (1u64 << 53) - 1);
}

// Expects the first of two values to be the lesser, whichever is asked.
fn expect_rise<V: Plain>(rt: &impl Abort, low: &V, high: &V) {
    assert!(rt; low.cmp(high) == Ordering::Less && high.cmp(low) == Ordering::Greater);
}

#[test]
fn names_and_texts_are_ordered_by_their_bytes_and_not_by_length_first(rt: HostRuntime) {
    for (low, high) in [("-", "0"), ("0", "_"), ("_", "a"), ("a", "ab"), ("ab", "b")] {
        expect_rise(&rt, &node(&rt, low), &node(&rt, high));
    }
    for (low, high) in [("", "!"), ("Z", "a"), ("a", "ab"), ("ab", "b")] {
        expect_rise(&rt, &text(&rt, low), &text(&rt, high));
    }
}

#[test]
fn restarts_and_shutdowns_rise_as_they_are_listed(rt: HostRuntime) {
    expect_rise(&rt, &Restart::Permanent, &Restart::Transient);
    expect_rise(&rt, &Restart::Transient, &Restart::Temporary);
    for (low, high) in [
        (Shutdown::Brutal, Shutdown::Millis(0)),
        (Shutdown::Millis(0), Shutdown::Millis(9)),
        (Shutdown::Millis(9), Shutdown::Millis(10)),
        (Shutdown::Millis(u32::MAX), Shutdown::Infinity),
    ] {
        expect_rise(&rt, &low, &high);
    }
}

fn spec(
    rt: &(impl Abort + AllocGlobal),
    of_kind: &str,
    arg: &str,
    restart: Restart,
    shutdown: Shutdown,
) -> ChildSpec {
    ChildSpec {
        kind: kind(rt, of_kind),
        arg: text(rt, arg),
        restart,
        shutdown,
    }
}

// Expects a specification to be less than one of kind b with arg y that is transient and waits for ever.
fn expect_lesser(rt: &(impl Abort + AllocGlobal), lesser: &ChildSpec) {
    let greatest = spec(rt, "b", "y", Restart::Transient, Shutdown::Infinity);
    assert!(rt; lesser.order(&greatest) == Ordering::Less);
    expect_rise(rt, lesser, &greatest);
}

#[test]
fn specifications_are_ordered_by_kind_then_arg_then_restart_then_shutdown(rt: HostRuntime) {
    for (kind, arg, restart, shutdown) in [
        ("a", "z", Restart::Temporary, Shutdown::Infinity),
        ("b", "x", Restart::Temporary, Shutdown::Infinity),
        ("b", "y", Restart::Permanent, Shutdown::Infinity),
        ("b", "y", Restart::Transient, Shutdown::Millis(9)),
    ] {
        expect_lesser(&rt, &spec(&rt, kind, arg, restart, shutdown));
    }
}

// Expects that a copy can be made, which equals its source.
fn expect_copy<V: Plain>(rt: &(impl Abort + AllocGlobal), value: V) {
    let copy = value.try_clone(rt.alloc()).expect(rt, "a copy");
    assert!(rt; copy == value);
}

fn name(rt: &(impl Abort + AllocGlobal), name: &str) -> Name {
    Name::parse(rt.alloc(), name).expect(rt, "a name")
}

#[test]
fn names_and_texts_have_copies(rt: HostRuntime) {
    expect_copy(&rt, node(&rt, "n1"));
    expect_copy(&rt, child_id(&rt, "web"));
    expect_copy(&rt, name(&rt, "www"));
    expect_copy(&rt, kind(&rt, "http"));
    expect_copy(&rt, label(&rt, "moved"));
    expect_copy(&rt, text(&rt, ""));
    expect_copy(&rt, 7u8);
}

fn member(rt: &(impl Abort + AllocGlobal), label: &str, status: Status) -> MemberInfo {
    MemberInfo {
        label: text(rt, label),
        status,
    }
}

// Expects a member to be less than one with label b that is draining.
fn expect_lesser_member(rt: &(impl Abort + AllocGlobal), lesser: &MemberInfo) {
    let greatest = member(rt, "b", Status::Draining);
    assert!(rt; lesser.order(&greatest) == Ordering::Less);
    expect_rise(rt, lesser, &greatest);
}

#[test]
fn members_are_ordered_by_label_then_open_before_draining(rt: HostRuntime) {
    for (label, status) in [
        ("a", Status::Draining),
        ("a", Status::Open),
        ("b", Status::Open),
    ] {
        expect_lesser_member(&rt, &member(&rt, label, status));
    }
}

#[test]
fn specifications_members_and_reasons_have_copies(rt: HostRuntime) {
    let waits = Shutdown::Millis(5);
    expect_copy(&rt, spec(&rt, "web", "port=80", Restart::Transient, waits));
    expect_copy(&rt, member(&rt, "rack-1", Status::Open));
    expect_copy(&rt, member(&rt, "rack-1", Status::Draining));
    expect_copy(&rt, Restart::Transient);
    expect_copy(&rt, Shutdown::Infinity);
    expect_copy(&rt, ExitReason::ShutdownWith(label(&rt, "moved")));
    expect_copy(&rt, ExitReason::Normal);
    expect_copy(&rt, ExitReason::Shutdown);
    expect_copy(&rt, ExitReason::Failed);
    expect_copy(&rt, ExitReason::Crash);
}

fn expect_text(rt: &impl Abort, text: &str, wanted: &str) {
    assert!(rt; text == wanted, "{text}");
}

fn expect_shown(rt: &(impl Abort + AllocGlobal), value: &impl Display, wanted: &str) {
    let shown = format!(in rt.alloc(); "{value}").expect(rt, "room");
    expect_text(rt, &shown, wanted);
}

fn expect_quoted(rt: &(impl Abort + AllocGlobal), node: &NodeName, wanted: &str) {
    let shown = format!(in rt.alloc(); "{node:?}").expect(rt, "room");
    expect_text(rt, &shown, wanted);
}

#[test]
fn a_node_name_is_shown_as_it_was_read(rt: HostRuntime) {
    let node = node(&rt, "n-1");
    expect_shown(&rt, &node, "n-1");
    expect_quoted(&rt, &node, "\"n-1\"");
    assert!(rt; node.as_bytes() == "n-1".as_bytes());
}

#[test]
fn a_fault_says_what_is_wrong_and_where(rt: HostRuntime) {
    expect_shown(&rt, &TextFault::Empty, "the text is empty");
    expect_shown(&rt, &TextFault::TooLong, "the text is too long");
    expect_shown(&rt, &TextFault::OutOfMemory, "out of memory");
    let bad = TextFault::BadByte(3);
    expect_shown(&rt, &bad, "the byte at place 3 is not allowed");
    expect_shown(&rt, &ReasonFault::NotAReason, "the text is no exit reason");
    expect_shown(&rt, &ReasonFault::OutOfMemory, "out of memory");
}

#[test]
fn ids_and_texts_give_back_what_was_read(rt: HostRuntime) {
    expect_shown(&rt, &child_id(&rt, "web/0"), "web/0");
    expect_text(&rt, child_id(&rt, "web/1").as_str(), "web/1");
    expect_text(&rt, name(&rt, "www").as_str(), "www");
    expect_text(&rt, kind(&rt, "http").as_str(), "http");
    expect_text(&rt, label(&rt, "moved").as_str(), "moved");
    expect_text(&rt, text(&rt, "port=80").as_str(), "port=80");
}

// How many different ids there are among these, as a set that hashes them tells.
fn different(rt: &(impl Abort + AllocGlobal), ids: &[&str]) -> usize {
    let mut seen = HashSet::new(rt.alloc());
    for id in ids {
        let _ = seen.insert(child_id(rt, id)).expect(rt, "room");
    }
    seen.len()
}

#[test]
fn equal_ids_hash_alike(rt: HostRuntime) {
    assert!(rt; different(&rt, &["web", "db", "web", "web/1", "db"]) == 3);
}

fn reason(rt: &(impl Abort + AllocGlobal), text: &str) -> ExitReason {
    ExitReason::parse(rt.alloc(), text).expect(rt, "a reason")
}

#[test]
fn exit_reasons_are_read_and_shown_alike(rt: HostRuntime) {
    for text in ["normal", "shutdown", "shutdown:moved", "failed", "crash"] {
        expect_shown(&rt, &reason(&rt, text), text);
    }
    assert!(rt; reason(&rt, "crash") == ExitReason::Crash);
}

fn expect_reason_fault(rt: &(impl Abort + AllocGlobal), text: &str, fault: Option<ReasonFault>) {
    assert!(rt;
        ExitReason::parse(rt.alloc(), text).err() == fault,
        "at {text}"
    );
}

fn behind_shutdown(rt: &(impl Abort + AllocGlobal), label: &str) -> String {
    format!(in rt.alloc(); "shutdown:{label}").expect(rt, "room")
}

#[test]
fn other_texts_are_no_exit_reasons(rt: HostRuntime) {
    let refused = Some(ReasonFault::NotAReason);
    for text in [
        "",
        "Normal",
        "normal ",
        "shutdown:",
        "shutdown:a b",
        "crashed",
    ] {
        expect_reason_fault(&rt, text, refused);
    }
    for (count, fault) in [(1, None), (128, None), (129, refused)] {
        let label = repeated(&rt, "l", count);
        expect_reason_fault(&rt, &behind_shutdown(&rt, &label), fault);
    }
}
