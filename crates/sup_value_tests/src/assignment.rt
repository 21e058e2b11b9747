//! The places of several children, against those that were computed with another program.
use crate::given::{child_id, node};
use crate::placement::{A_TO_E, CountingWeigh, nodes};
use std::cell::Cell;
use std::process::Abort;
use sup_placement::{Assignment, FlatWeigh, Sha256Weigh, Weigh};
use sup_specs::ChildId;

// Of these children among a to e.
fn over<W: Weigh>(rt: &(impl Abort + AllocGlobal), weigher: &W, ids: &[&ChildId]) -> Assignment<W> {
    Assignment::over(rt.alloc(), weigher, &nodes(rt, &A_TO_E), ids).expect(rt, "room")
}

fn expect_at<W: Weigh>(
    rt: &(impl Abort + AllocGlobal),
    places: &Assignment<W>,
    id: &str,
    member: &str,
) {
    assert!(rt;
        places.at(&child_id(rt, id)) == Some(node(rt, member)),
        "a place"
    );
}

fn expect_nowhere<W: Weigh>(rt: &(impl Abort + AllocGlobal), places: &Assignment<W>, id: &str) {
    assert!(rt; places.at(&child_id(rt, id)).is_none(), "no place");
}

fn touch<W: Weigh>(
    rt: &(impl Abort + AllocGlobal),
    places: &mut Assignment<W>,
    weigher: &W,
    id: &str,
    present: bool,
) {
    let id = child_id(rt, id);
    places.touch(weigher, &id, present).expect(rt, "room")
}

// The places were computed with Python's `hashlib`.
fn web_and_x(rt: &(impl Abort + AllocGlobal)) -> Assignment<Sha256Weigh> {
    over(
        rt,
        &Sha256Weigh,
        &[&child_id(rt, "web"), &child_id(rt, "x")],
    )
}

#[test]
fn each_child_that_is_there_is_at_its_place_and_no_other_is_anywhere(rt: HostRuntime) {
    let places = web_and_x(&rt);
    expect_at(&rt, &places, "web", "e");
    expect_at(&rt, &places, "x", "b");
    expect_nowhere(&rt, &places, "y");
}

#[test]
fn a_touched_child_comes_and_goes_and_all_others_stay(rt: HostRuntime) {
    let mut places = web_and_x(&rt);
    touch(&rt, &mut places, &Sha256Weigh, "y", true);
    touch(&rt, &mut places, &Sha256Weigh, "x", true);
    touch(&rt, &mut places, &Sha256Weigh, "z", false);
    touch(&rt, &mut places, &Sha256Weigh, "web", false);
    expect_at(&rt, &places, "y", "a");
    expect_at(&rt, &places, "x", "b");
    expect_nowhere(&rt, &places, "z");
    expect_nowhere(&rt, &places, "web");
}

#[test]
fn there_is_no_place_where_there_are_no_members(rt: HostRuntime) {
    let web = child_id(&rt, "web");
    let places = Assignment::over(rt.alloc(), &FlatWeigh, &[], &[&web]);
    expect_nowhere(&rt, &places.expect(&rt, "room"), "web");
}

fn expect_asked(rt: &impl Abort, weigher: &CountingWeigh, count: u32) {
    assert!(rt; weigher.asked.get() == count, "how often it was asked");
}

#[test]
fn a_child_is_weighed_when_it_comes_and_never_again(rt: HostRuntime) {
    let weigher = CountingWeigh {
        asked: Cell::new(0),
    };
    let mut places = over(&rt, &weigher, &[&child_id(&rt, "x"), &child_id(&rt, "y")]);
    expect_asked(&rt, &weigher, 10);
    touch(&rt, &mut places, &weigher, "z", true);
    expect_asked(&rt, &weigher, 15);
    touch(&rt, &mut places, &weigher, "x", false);
    expect_at(&rt, &places, "z", "a");
    expect_asked(&rt, &weigher, 15);
}

fn sure_id(rt: &(impl Abort + AllocGlobal), id: &str) -> ChildId {
    match ChildId::parse(rt.alloc(), id) {
        Ok(id) => id,
        Err(_) => child_id(rt, id),
    }
}

// Whether the place of a child is this member, or nowhere.
fn is_at(places: &Assignment<FlatWeigh>, id: &ChildId, there: bool) -> bool {
    places.at(id).is_some() == there
}

// Touches a child, of which was told before or not, where a refused growth isn't the end.
fn sure_touch(
    rt: &impl Abort,
    places: &mut Assignment<FlatWeigh>,
    id: &ChildId,
    before: bool,
    present: bool,
) {
    if places.touch(&FlatWeigh, id, present).is_err() {
        assert!(rt; is_at(places, id, before), "a refused touch");
        places.touch(&FlatWeigh, id, present).expect(rt, "room")
    }
    assert!(rt; is_at(places, id, present), "a touch");
}

// Told of no child, but of the member a.
fn sure_places(rt: &(impl Abort + AllocGlobal)) -> Assignment<FlatWeigh> {
    let members = [node(rt, "a")];
    match Assignment::over(rt.alloc(), &FlatWeigh, &members, &[]) {
        Ok(places) => places,
        Err(_) => Assignment::over(rt.alloc(), &FlatWeigh, &members, &[]).expect(rt, "room"),
    }
}

#[test]
fn a_refused_touch_changes_nothing_and_can_be_made_again(rt: HostRuntime) {
    let mut places = sure_places(&rt);
    for name in ["a", "b", "c", "d", "e", "f", "g", "h", "i", "j", "k", "l"] {
        let id = sure_id(&rt, name);
        sure_touch(&rt, &mut places, &id, false, true);
    }
    for name in ["b", "l", "e", "a"] {
        let id = sure_id(&rt, name);
        sure_touch(&rt, &mut places, &id, true, false);
        sure_touch(&rt, &mut places, &id, false, true);
    }
}
