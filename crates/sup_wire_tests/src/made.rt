//! Messages and images as nodes make them. `None` where memory was refused.
use crate::given::{node, try_id, try_unlabelled, try_worker};
use std::process::Abort;
use sup_causal::Lattice;
use sup_image_text::{NextImage, RowChange};
use sup_tables::Tables;
use sup_wire::{Heading, Image, Message};

pub(crate) fn ack(rt: &impl Abort, from: &str, n: u64, to: &str) -> Message {
    Message::Ack {
        from: node(rt, from),
        to: node(rt, to),
        n,
    }
}

fn delta(rt: &impl Abort, from: &str, n: u64, to: &str, delta: Tables) -> Message {
    Message::Delta {
        from: node(rt, from),
        to: node(rt, to),
        n,
        delta,
    }
}

// What node a changed when it started a child.
pub(crate) fn start(rt: &(impl Abort + AllocGlobal), state: &Tables, id: &str) -> Option<Tables> {
    let (started, _) = state
        .put_child(node(rt, "a"), try_id(rt, id)?, try_worker(rt, "")?)
        .ok()?;
    Some(started)
}

// Node a has joined.
pub(crate) fn alone(rt: &(impl Abort + AllocGlobal)) -> Option<Tables> {
    let (joined, _) = Tables::empty(rt.alloc())
        .put_member(node(rt, "a"), try_unlabelled(rt)?)
        .ok()?;
    Some(joined)
}

// Node a has joined and started a child.
fn joined(rt: &(impl Abort + AllocGlobal)) -> Option<Tables> {
    let state = alone(rt)?;
    let started = start(rt, &state, "web")?;
    state.joined(rt.alloc(), &started).ok()
}

pub(crate) fn joined_sent(rt: &(impl Abort + AllocGlobal)) -> Option<Message> {
    Some(delta(rt, "a", 2, "b", joined(rt)?))
}

// Node b has removed the child that it took in.
pub(crate) fn removed_sent(rt: &(impl Abort + AllocGlobal)) -> Option<Message> {
    let state = joined(rt)?;
    let (removed, _) = state.drop_child(&try_id(rt, "web")?).ok()?;
    let all = state.joined(rt.alloc(), &removed).ok()?;
    Some(delta(rt, "b", 2, "a", all))
}

// Node a has replaced its child meanwhile.
pub(crate) fn replaced_sent(rt: &(impl Abort + AllocGlobal)) -> Option<Message> {
    let (replaced, _, _) = joined(rt)?
        .replace_child(node(rt, "a"), try_id(rt, "web")?, try_worker(rt, "x")?)
        .ok()?;
    Some(Message::Push {
        from: node(rt, "a"),
        to: node(rt, "b"),
        delta: replaced,
    })
}

// Node b has joined, and drained the member that it took in.
pub(crate) fn drained_sent(rt: &(impl Abort + AllocGlobal)) -> Option<Message> {
    let state = joined(rt)?;
    let (joined, _) = state.put_member(node(rt, "b"), try_unlabelled(rt)?).ok()?;
    let all = state.joined(rt.alloc(), &joined).ok()?;
    let (drained, _, _) = all.drain_member(node(rt, "b"), &node(rt, "a")).ok()?;
    Some(Message::Push {
        from: node(rt, "b"),
        to: node(rt, "a"),
        delta: drained,
    })
}

pub(crate) fn first_sent(rt: &(impl Abort + AllocGlobal)) -> Option<Message> {
    let first = start(rt, &Tables::empty(rt.alloc()), "x")?;
    Some(delta(rt, "a", 1, "b", first))
}

// The delta of a child behind another one.
pub(crate) fn second_sent(rt: &(impl Abort + AllocGlobal)) -> Option<Message> {
    let first = start(rt, &Tables::empty(rt.alloc()), "x")?;
    let second = start(rt, &first, "y")?;
    Some(delta(rt, "a", 2, "b", second))
}

pub(crate) fn opening(rt: &(impl Abort + AllocGlobal)) -> Image {
    Image {
        node: node(rt, "a"),
        boot: 1,
        count: 0,
        state: Tables::empty(rt.alloc()),
    }
}

pub(crate) fn joined_kept(rt: &(impl Abort + AllocGlobal)) -> Option<Image> {
    Some(Image {
        node: node(rt, "a"),
        boot: 1,
        count: 2,
        state: joined(rt)?,
    })
}

// The image, as one of which all rows are written anew.
pub(crate) fn lent(image: &Image) -> Option<NextImage<'_>> {
    Some(NextImage {
        heading: Heading {
            node: image.node,
            boot: image.boot,
            count: image.count,
            context: image.state.context(),
        },
        rows: RowChange::All(image.state.lent_rows().ok()?),
    })
}
