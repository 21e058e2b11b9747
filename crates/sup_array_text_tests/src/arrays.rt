//! Arrays that are put together.
use crate::words::{Word, begun, expect_text};
use std::alloc::{AllocError, AllocGlobal};
use std::test::Fail;
use sup_array_text::{ArrayBuilding, ArrayText, Room};

const FRONT: &str = "{\"rows\":";

// The array of one, two and three.
fn three(rt: &impl AllocGlobal) -> Result<ArrayText, AllocError> {
    begun(rt, FRONT, &[Word("one"), Word("two"), Word("three")])?.closed(b"}")
}

#[test]
fn an_array_of_no_items_has_its_brackets(rt: HostRuntime) -> Result<(), Fail> {
    let array = begun(&rt, FRONT, &[])?.closed(b"}")?;
    expect_text(&rt, &array, "{\"rows\":[]}", 0);
    Ok(())
}

#[test]
fn items_stand_between_commas(rt: HostRuntime) -> Result<(), Fail> {
    let array = three(&rt)?;
    expect_text(&rt, &array, "{\"rows\":[one,two,three]}", 3);
    Ok(())
}

#[test]
fn each_item_is_found_at_its_place(rt: HostRuntime) -> Result<(), Fail> {
    let array = three(&rt)?;
    assert!(rt; array.count() == 3);
    assert_eq!(rt; array.item(0), b"one".as_slice());
    assert_eq!(rt; array.item(1), b"two".as_slice());
    assert_eq!(rt; array.item(2), b"three".as_slice());
    Ok(())
}

#[test]
fn runs_of_another_array_are_taken_in_any_order(rt: HostRuntime) -> Result<(), Fail> {
    let array = three(&rt)?;
    assert!(rt; array.count() == 3);
    let turned = begun(&rt, "", &[])?
        .with_run(&array, 2, 3)?
        .with_run(&array, 0, 2)?
        .closed(b"")?;
    expect_text(&rt, &turned, "[three,one,two]", 3);
    Ok(())
}

#[test]
fn an_item_goes_and_one_comes_between_runs(rt: HostRuntime) -> Result<(), Fail> {
    let array = three(&rt)?;
    assert!(rt; array.count() == 3);
    let next = begun(&rt, FRONT, &[])?
        .with_run(&array, 0, 1)?
        .with_item(&Word("middle"))?
        .with_run(&array, 2, 3)?
        .closed(b"}")?;
    expect_text(&rt, &next, "{\"rows\":[one,middle,three]}", 3);
    assert_eq!(rt;
        next.into_text().as_slice(),
        b"{\"rows\":[one,middle,three]}".as_slice()
    );
    Ok(())
}

#[test]
fn an_empty_run_changes_nothing(rt: HostRuntime) -> Result<(), Fail> {
    let array = three(&rt)?;
    assert!(rt; array.count() == 3);
    let one = begun(&rt, "", &[Word("one")])?
        .with_run(&array, 2, 2)?
        .closed(b"")?;
    expect_text(&rt, &one, "[one]", 1);
    Ok(())
}

// An array in a room of another one's buffers, told to be of so many items and bytes.
fn in_room_of_three(
    rt: &impl AllocGlobal,
    front: &[u8],
    items: usize,
    bytes: usize,
) -> Result<ArrayText, AllocError> {
    ArrayBuilding::in_room(three(rt)?.into_room(), front, items, bytes)?
        .with_item(&Word("four"))?
        .closed(b"}")
}

#[test]
fn nothing_is_left_of_what_a_room_held(rt: HostRuntime) -> Result<(), Fail> {
    let shorter = in_room_of_three(&rt, b"{", 1, 8)?;
    expect_text(&rt, &shorter, "{[four]}", 1);
    let longer = in_room_of_three(
        &rt,
        b"{\"a front that is longer than the room\":",
        100,
        1000,
    )?;
    expect_text(
        &rt,
        &longer,
        "{\"a front that is longer than the room\":[four]}",
        1,
    );
    Ok(())
}

#[test]
fn more_may_come_than_a_room_was_told_of(rt: HostRuntime) -> Result<(), Fail> {
    let empty = ArrayBuilding::in_room(Room::new(rt.alloc()), b"", 0, 0)?.closed(b"")?;
    expect_text(&rt, &empty, "[]", 0);
    let grown = in_room_of_three(&rt, FRONT.as_bytes(), 0, 0)?;
    expect_text(&rt, &grown, "{\"rows\":[four]}", 1);
    Ok(())
}

#[test]
fn more_room_than_there_is_memory_is_refused(rt: HostRuntime) -> Result<(), Fail> {
    let room = Room::new(rt.alloc());
    assert!(rt; ArrayBuilding::in_room(room, b"{", 0, usize::MAX).is_err());
    let room = Room::new(rt.alloc());
    assert!(rt; ArrayBuilding::in_room(room, b"{", usize::MAX, 0).is_err());
    Ok(())
}
