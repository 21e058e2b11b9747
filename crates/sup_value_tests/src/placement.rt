//! Placement against digests and places that were computed with other programs.
ghost use Rattle.std.specs.Prelude.{◌≡◌};
ghost use Rattle.sup_placement.specs.Place.{place};
ghost use Rattle.sup_placement.specs.Weights.{flat_weight};

use crate::given::{child_id, node, repeated};
use sha2::{Digest, Sha256};
use std::cell::Cell;
use std::process::Abort;
use sup_placement::{FlatWeigh, Sha256Weigh, Weigh, place};
use sup_specs::{ChildId, NodeName};

pub(crate) const A_TO_E: [&str; 5] = ["a", "b", "c", "d", "e"];

pub(crate) fn nodes(rt: &(impl Abort + AllocGlobal), names: &[&str]) -> Vec<NodeName> {
    let mut nodes = Vec::new(rt.alloc());
    for name in names {
        nodes.push(node(rt, name)).expect(rt, "room");
    }
    nodes
}

// Knows of the weigher what the bound says alone.
fn place_by<W: Weigh>(weigher: &W, members: &[NodeName], id: &ChildId) -> Option<NodeName>
    ensures { result ≡ place W.weight_of members.now id.now }
{
    place(weigher, members, id)
}

// The member on which a child is placed.
fn place_of<W: Weigh>(
    rt: &(impl Abort + AllocGlobal),
    weigher: &W,
    members: &[&str],
    id: &ChildId,
) -> Option<NodeName> {
    place_by(weigher, &nodes(rt, members), id)
}

// Expects a child to be placed on the member.
fn expect_place<W: Weigh>(
    rt: &(impl Abort + AllocGlobal),
    weigher: &W,
    members: &[&str],
    id: &ChildId,
    member: &str,
) {
    let placed = place_of(rt, weigher, members, id);
    assert!(rt; placed == Some(node(rt, member)));
}

#[test]
fn a_tie_goes_to_the_least_name(rt: HostRuntime) {
    let web = child_id(&rt, "web");
    for (members, member) in [
        (["b", "a", "c"], "a"),
        (["c", "b", "b"], "b"),
        (["c", "c", "c"], "c"),
    ] {
        expect_place(&rt, &FlatWeigh, &members, &web, member);
    }
}

#[test]
fn there_is_no_place_among_no_members(rt: HostRuntime) {
    let web = child_id(&rt, "web");
    assert!(rt; place_of(&rt, &FlatWeigh, &[], &web).is_none());
    assert!(rt; place_of(&rt, &Sha256Weigh, &[], &web).is_none());
}

#[test]
fn flat_weights_are_zeros(rt: HostRuntime) {
    assert!(rt; FlatWeigh.weight(&node(&rt, "a"), &child_id(&rt, "web")) == [0; 32]);
}

const ABC: [u8; 32] = [
    0xba, 0x78, 0x16, 0xbf, 0x8f, 0x01, 0xcf, 0xea, 0x41, 0x41, 0x40, 0xde, 0x5d, 0xae, 0x22, 0x23,
    0xb0, 0x03, 0x61, 0xa3, 0x96, 0x17, 0x7a, 0x9c, 0xb4, 0x10, 0xff, 0x61, 0xf2, 0x00, 0x15, 0xad,
];

const A_WEB: [u8; 32] = [
    0x5e, 0x62, 0x60, 0x18, 0x7d, 0x8c, 0x6f, 0x0d, 0x15, 0x43, 0x5b, 0xfc, 0xe5, 0x83, 0x08, 0x07,
    0x80, 0xa6, 0xf4, 0x63, 0x30, 0x87, 0xf8, 0xf1, 0x6f, 0x7d, 0xfe, 0xb7, 0x98, 0x1a, 0x7c, 0xf7,
];

const LONGEST: [u8; 32] = [
    0x77, 0x6b, 0x14, 0x30, 0x02, 0x78, 0x2b, 0x57, 0x5a, 0x1c, 0x50, 0x3d, 0x20, 0x7b, 0x8e, 0x8a,
    0x2a, 0x59, 0xef, 0xb6, 0x59, 0x67, 0xcf, 0x4b, 0x74, 0xe4, 0x9d, 0x88, 0x66, 0xfc, 0xb0, 0x91,
];

fn expect_weight(rt: &(impl Abort + AllocGlobal), member: &str, id: &str, wanted: [u8; 32]) {
    let weight = Sha256Weigh.weight(&node(rt, member), &child_id(rt, id));
    assert!(rt; weight == wanted);
}

// By `printf 'abc' | sha256sum`, `printf 'a\0web' | sha256sum`, and the same of 64 times `n`, a byte 0 and
// 128 times `c`.
#[test]
fn a_weight_is_the_digest_of_the_member_a_zero_and_the_id(rt: HostRuntime) {
    assert!(rt; Sha256::digest("abc") == ABC && Sha256::digest("a\0web") == A_WEB);
    expect_weight(&rt, "a", "web", A_WEB);
    expect_weight(
        &rt,
        &repeated(&rt, "n", 64),
        &repeated(&rt, "c", 128),
        LONGEST,
    );
}

// The places were computed with Python's `hashlib`.
#[test]
fn a_child_goes_to_the_member_of_greatest_digest(rt: HostRuntime) {
    for (id, member) in [
        ("web", "e"),
        ("db", "e"),
        ("x", "b"),
        ("y", "a"),
        ("z", "c"),
        ("~", "e"),
        ("cache", "c"),
        ("queue", "c"),
        ("mail", "b"),
        ("log", "c"),
        ("!", "c"),
    ] {
        expect_place(&rt, &Sha256Weigh, &A_TO_E, &child_id(&rt, id), member);
    }
}

fn numbered(rt: &(impl Abort + AllocGlobal), number: u32) -> ChildId {
    let id = format!(in rt.alloc(); "child-{number}").expect(rt, "room");
    child_id(rt, &id)
}

// Where the members place a child of this number by its digests.
fn numbered_place(
    rt: &(impl Abort + AllocGlobal),
    members: &[&str],
    number: u32,
) -> Option<NodeName> {
    place_of(rt, &Sha256Weigh, members, &numbered(rt, number))
}

fn expect_alike(rt: &(impl Abort + AllocGlobal), members: &[&str], number: u32) {
    assert!(rt; numbered_place(rt, members, number) == numbered_place(rt, &A_TO_E, number));
}

#[test]
fn order_and_repeats_of_members_change_no_place(rt: HostRuntime) {
    for i in 0..50 {
        expect_alike(&rt, &["e", "d", "c", "b", "a"], i);
        expect_alike(&rt, &["c", "a", "c", "e", "b", "d", "a", "d"], i);
    }
}

// Whether a child moves when c is taken away, which it must exactly if it was there.
fn moves(rt: &(impl Abort + AllocGlobal), number: u32) -> bool {
    let c = Some(node(rt, "c"));
    let before = numbered_place(rt, &A_TO_E, number);
    let after = numbered_place(rt, &["a", "b", "d", "e"], number);
    assert!(rt; after.is_some() && after != c);
    assert!(rt; (before == c) == (before != after));
    before == c
}

// Of these ids 42 are placed on c, by Python's `hashlib`.
#[test]
fn only_the_children_of_a_member_taken_away_move(rt: HostRuntime) {
    let mut moved = 0u32;
    for i in 0..200 {
        if moves(&rt, i) {
            moved = moved.saturating_add(1);
        }
    }
    assert!(rt; moved == 42);
}

// Weighs all alike, and counts how often it is asked.
#[derive(Drop)]
pub(crate) struct CountingWeigh {
    pub asked: Cell<u32>,
}

impl Weigh for CountingWeigh {
    ghost weight_of = { flat_weight };

    fn weight(&self, _member: &NodeName, _id: &ChildId) -> [u8; 32] {
        self.asked.set(self.asked.get().saturating_add(1));
        [0; 32]
    }
}

#[test]
fn each_member_is_weighed_once(rt: HostRuntime) {
    let weigher = CountingWeigh {
        asked: Cell::new(0),
    };
    expect_place(&rt, &weigher, &A_TO_E, &child_id(&rt, "web"), "a");
    assert!(rt; weigher.asked.get() == 5);
}
