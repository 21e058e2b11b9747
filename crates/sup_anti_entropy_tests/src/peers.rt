//! Nodes of the tests, which start children and send what a peer lacks. The calls promise nothing, and end the test
//! where one of the buffer's fails.
use std::process::Abort;
use sup_anti_entropy::{Buffer, Shipment};
use sup_causal::{Dot, Lattice};
use sup_specs::{ChildId, ChildSpec, Kind, MAX, NodeName, Restart, Shutdown, Text};
use sup_tables::Tables;

/// A node: its name, its tables and its buffer.
#[derive(Drop)]
pub(crate) struct Peer {
    pub(crate) name: NodeName,
    pub(crate) tables: Tables,
    pub(crate) buffer: Buffer,
}

pub(crate) fn node(rt: &impl Abort, name: &str) -> NodeName {
    NodeName::parse(name).expect(rt, "a node's name")
}

pub(crate) fn new_peer(rt: &(impl Abort + AllocGlobal), name: &str, capacity: usize) -> Peer {
    assert!(rt; 1 <= capacity && capacity <= 1024);
    Peer {
        name: node(rt, name),
        tables: Tables::empty(rt.alloc()),
        buffer: Buffer::new(rt.alloc(), capacity).expect(rt, "room"),
    }
}

fn spec(rt: &(impl Abort + AllocGlobal)) -> ChildSpec {
    ChildSpec {
        kind: Kind::parse(rt.alloc(), "worker").expect(rt, "a kind"),
        arg: Text::parse(rt.alloc(), "").expect(rt, "a text"),
        restart: Restart::Permanent,
        shutdown: Shutdown::Millis(5000),
    }
}

// Takes the delta into the tables and the buffer.
fn take(rt: &(impl Abort + AllocGlobal), peer: &mut Peer, delta: Tables) {
    peer.tables
        .join_from(rt.alloc(), &delta)
        .expect(rt, "a join");
    peer.buffer.note(delta).expect(rt, "a count")
}

pub(crate) fn start(rt: &(impl Abort + AllocGlobal), peer: &mut Peer, id: &str) {
    let id = ChildId::parse(rt.alloc(), id).expect(rt, "an id");
    let put = peer.tables.put_child(peer.name, id, spec(rt));
    let (delta, _dot) = put.expect(rt, "an add");
    take(rt, peer, delta)
}

pub(crate) fn shipment(rt: &impl Abort, from: &Peer, to: &Peer) -> Option<Shipment> {
    from.buffer
        .ship(&from.tables, &to.name)
        .expect(rt, "a shipment")
}

pub(crate) fn acknowledge(rt: &impl Abort, at: &mut Peer, from: &Peer, n: u64) {
    assert!(rt; n <= at.buffer.count());
    at.buffer.acked(from.name, n).expect(rt, "room")
}

// Sends what the peer lacks, which it takes in and acknowledges.
pub(crate) fn exchange(rt: &(impl Abort + AllocGlobal), from: &mut Peer, to: &mut Peer) {
    if let Some(Shipment { delta, n, .. }) = shipment(rt, from, to) {
        take(rt, to, delta);
        acknowledge(rt, from, to, n)
    }
}

pub(crate) fn restart(rt: &impl Abort, peer: &mut Peer, count: u64) {
    assert!(rt; count <= MAX);
    peer.buffer.restart(count)
}

pub(crate) fn knows(rt: &impl Abort, tables: &Tables, name: &str, counter: u64) -> bool {
    tables.context().contains(&Dot {
        counter,
        node: node(rt, name),
    })
}

// Expects a peer to be sent its interval as a part or as a whole, under the number.
pub(crate) fn expect_sent(rt: &impl Abort, from: &Peer, to: &Peer, n: u64, whole: bool) -> Tables {
    let sent = shipment(rt, from, to).expect(rt, "something to send");
    assert!(rt; sent.n == n && sent.whole == whole);
    sent.delta
}

pub(crate) fn expect_up_to_date(rt: &impl Abort, from: &Peer, to: &Peer) {
    assert!(rt; shipment(rt, from, to).is_none());
}

// Expects two tables to know the same.
pub(crate) fn expect_same(rt: &impl Abort, left: &Tables, right: &Tables) {
    assert!(rt; left.leq(right) && right.leq(left));
}
