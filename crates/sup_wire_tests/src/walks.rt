//! Walks through many changes, in which the next image's text is put together of the last one's.
ghost use Rattle.sup_tables.specs.States.{State};
ghost use Rattle.sup_tables.specs.Planned.{IsPlanFor};

use crate::walked_acts::{delta, node};
use std::process::Abort;
use std::test::Fail;
use sup_array_text::{ArrayText, Room};
use sup_causal::Lattice;
use sup_image_text::{NextImage, RowChange, text_after};
use sup_tables::{PlannedTables, Tables};
use sup_wire::{Heading, Image, encode_image, text_of};

// The image of these tables.
fn image(rt: &impl Abort, count: u64, state: Tables) -> Image {
    Image {
        node: node(rt, "a"),
        boot: 1,
        count,
        state,
    }
}

// The text of the image that a plan makes.
fn next(
    rt: &(impl Abort + AllocGlobal),
    texts: &ArrayText,
    state: &Tables,
    plan: &PlannedTables,
    count: u64,
) -> ArrayText
    requires { (new : State) × IsPlanFor plan.now state.now new }
{
    let edits = state.lent_edits_after(rt.alloc(), plan).expect(rt, "room");
    let next = NextImage {
        heading: Heading {
            node: node(rt, "a"),
            boot: 1,
            count,
            context: state.context_after(plan),
        },
        rows: RowChange::Edits(edits),
    };
    text_after(rt.alloc(), texts, &next, Room::new(rt.alloc())).expect(rt, "room")
}

// A number that tells nothing of the one before it.
fn mixed(at: u64) -> u64 {
    let spread = at
        .wrapping_mul(6364136223846793005)
        .wrapping_add(1442695040888963407);
    spread >> 33
}

// Walks so many changes from no rows on, and expects every tenth text to be the one that is written
// anew.
fn walk(rt: &(impl Abort + AllocGlobal), steps: u64, seed: u64) {
    let mut state = Tables::empty(rt.alloc());
    state.index_rows();
    let first = image(rt, 0, Tables::empty(rt.alloc()));
    let mut texts = text_of(rt.alloc(), &first).expect(rt, "room");
    for at in 0..steps {
        let Some(change) = delta(rt, &state, mixed(at.wrapping_add(seed))) else {
            continue;
        };
        let plan = state.plan_join(rt.alloc(), &change).expect(rt, "room");
        let text = next(rt, &texts, &state, &plan, at);
        assert!(rt; state.follow(rt.alloc(), plan).is_ok());
        texts = text;
        if at % 10 == 0 {
            let copy = state.try_clone(rt.alloc()).expect(rt, "room");
            let wanted = encode_image(rt.alloc(), &image(rt, at, copy)).expect(rt, "room");
            assert_eq!(rt; texts.text(), wanted.as_slice());
        }
    }
}

#[test]
fn each_tenth_text_is_the_one_that_is_written_anew(rt: HostRuntime) -> Result<(), Fail> {
    walk(&rt, 400, 1);
    Ok(())
}

#[test]
fn another_walk_has_the_same_texts(rt: HostRuntime) -> Result<(), Fail> {
    walk(&rt, 400, 7919);
    Ok(())
}
