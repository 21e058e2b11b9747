//! Images of which all rows are written anew.
use crate::given::{IMAGE, OPENING, node};
use crate::made::{alone, joined_kept, lent, opening, start};
use std::process::Abort;
use sup_array_text::Room;
use sup_image_text::{NextImage, RowChange, text_after};
use sup_wire::{Heading, Image, encode_image, text_of};

// It has that text, whatever image it comes of.
fn expect_text(rt: &(impl Abort + AllocGlobal), next: &NextImage<'_>, wanted: &str) {
    let last = text_of(rt.alloc(), &opening(rt)).expect(rt, "room");
    let text = text_after(rt.alloc(), &last, next, Room::new(rt.alloc())).expect(rt, "room");
    assert!(rt; text.text() == wanted.as_bytes(), "{wanted}");
}

// It has the text that its image has.
fn expect_same(rt: &(impl Abort + AllocGlobal), image: &Image, wanted: &str) {
    let text = encode_image(rt.alloc(), image).expect(rt, "room");
    assert!(rt; text.as_slice() == wanted.as_bytes(), "{wanted}");
    expect_text(rt, &lent(image).expect(rt, "room"), wanted);
}

#[test]
fn an_image_by_its_rows_is_written_as_the_image_is(rt: HostRuntime) {
    expect_same(&rt, &opening(&rt), OPENING);
    let image = joined_kept(&rt).expect(&rt, "room");
    expect_same(&rt, &image, IMAGE);
}

// Nothing of the child stands in the node's tables yet.
#[test]
fn the_image_that_a_planned_join_will_leave_is_written_before_the_join(rt: HostRuntime) {
    let tables = alone(&rt).expect(&rt, "room");
    let started = start(&rt, &tables, "web").expect(&rt, "room");
    let plan = tables.plan_join(rt.alloc(), &started).expect(&rt, "room");
    let next = NextImage {
        heading: Heading {
            node: node(&rt, "a"),
            boot: 1,
            count: 2,
            context: tables.context_after(&plan),
        },
        rows: RowChange::All(
            tables
                .lent_rows_after(rt.alloc(), &plan)
                .expect(&rt, "room"),
        ),
    };
    expect_text(&rt, &next, IMAGE);
}
