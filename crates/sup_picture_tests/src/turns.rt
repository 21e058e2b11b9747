//! Bars of children, and gaps of nodes.
use crate::given::{began, changed, ended, run};
use sup_picture::{Turn, bars_of, children_of, gaps_of};

#[test]
fn a_bar_lasts_until_its_run_ends_or_its_node_stops(rt: HostRuntime) {
    let changes = vec![in rt.alloc();
        began(&rt, "a", run(&rt, "web", 1), 1),
        began(&rt, "a", run(&rt, "db", 2), 2),
        began(&rt, "b", run(&rt, "web", 1), 3),
        ended(&rt, "a", run(&rt, "web", 1), 4),
        changed(&rt, "a", Turn::Down, 6),
    ]
    .expect(&rt, "room");
    let bars = bars_of(rt.alloc(), changes.as_slice()).expect(&rt, "room");
    assert!(rt; bars.len() == 3);
    assert!(rt; bars[0].began == 1 && bars[0].ended == Some(4));
    assert!(rt; bars[1].began == 2 && bars[1].ended == Some(6));
    assert!(rt; bars[2].node.as_str() == "b" && bars[2].ended == None);
    let children = children_of(rt.alloc(), bars.as_slice()).expect(&rt, "room");
    assert!(rt; children.len() == 2);
    assert!(rt; children[1].as_str() == "db");
}

#[test]
fn a_run_that_ends_in_its_first_row_has_a_bar_of_no_height(rt: HostRuntime) {
    let changes = vec![in rt.alloc();
        began(&rt, "a", run(&rt, "web", 1), 5),
        ended(&rt, "a", run(&rt, "web", 1), 5),
    ]
    .expect(&rt, "room");
    let bars = bars_of(rt.alloc(), changes.as_slice()).expect(&rt, "room");
    assert!(rt; bars.len() == 1);
    assert!(rt; bars[0].ended == Some(5));
}

#[test]
fn a_gap_lasts_until_its_node_runs_again(rt: HostRuntime) {
    let changes = vec![in rt.alloc();
        changed(&rt, "a", Turn::Down, 1),
        changed(&rt, "b", Turn::Up, 2),
        changed(&rt, "a", Turn::Up, 3),
        changed(&rt, "a", Turn::Down, 4),
    ]
    .expect(&rt, "room");
    let gaps = gaps_of(rt.alloc(), changes.as_slice()).expect(&rt, "room");
    assert!(rt; gaps.len() == 2);
    assert!(rt; gaps[0].down == 1 && gaps[0].up == Some(3));
    assert!(rt; gaps[1].down == 4 && gaps[1].up == None);
}
