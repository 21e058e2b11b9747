//! Arrows of messages.
use crate::given::{came, left, message};
use sup_picture::{End, Way, arrows_of, receiver_of};

#[test]
fn a_message_that_came_twice_has_two_arrows_from_where_it_left(rt: HostRuntime) {
    let posts = vec![in rt.alloc();
        left(&rt, "a", 1, "b", 0),
        left(&rt, "a", 2, "b", 1),
        came(&rt, "a", 2, "b", Way::Learned, 3),
        came(&rt, "a", 2, "b", Way::Known, 4),
        came(&rt, "a", 1, "b", Way::Learned, 5),
    ]
    .expect(&rt, "room");
    let arrows = arrows_of(rt.alloc(), posts.as_slice()).expect(&rt, "room");
    assert!(rt; arrows.len() == 3);
    assert!(rt; arrows[0].left == Some(1));
    assert!(rt;
        matches!(
            arrows[0].end,
            End::Came {
                row: 3,
                way: Way::Learned
            }
        )
    );
    assert!(rt; arrows[1].left == Some(1));
    assert!(rt;
        matches!(
            arrows[1].end,
            End::Came {
                row: 4,
                way: Way::Known
            }
        )
    );
    assert!(rt; arrows[2].left == Some(0));
}

#[test]
fn a_message_that_came_cut_or_elsewhere_alone_is_lost(rt: HostRuntime) {
    let posts = vec![in rt.alloc();
        left(&rt, "a", 1, "b", 2),
        came(&rt, "a", 1, "b", Way::Cut, 3),
        came(&rt, "a", 1, "c", Way::Misdirected, 4),
    ]
    .expect(&rt, "room");
    let arrows = arrows_of(rt.alloc(), posts.as_slice()).expect(&rt, "room");
    assert!(rt; arrows.len() == 3);
    assert!(rt; matches!(arrows[0].end, End::Lost));
    assert!(rt; arrows[0].to.as_str() == "b");
    assert!(rt; arrows[2].to.as_str() == "c");
}

#[test]
fn a_message_that_came_to_another_node_that_was_down_alone_is_lost(rt: HostRuntime) {
    let posts = vec![in rt.alloc();
        left(&rt, "a", 1, "b", 1),
        came(&rt, "a", 1, "c", Way::Refused, 3),
    ]
    .expect(&rt, "room");
    let arrows = arrows_of(rt.alloc(), posts.as_slice()).expect(&rt, "room");
    assert!(rt; arrows.len() == 2);
    assert!(rt; arrows[0].left == Some(1));
    assert!(rt; arrows[0].to.as_str() == "b");
    assert!(rt; matches!(arrows[0].end, End::Lost));
    assert!(rt; arrows[1].left == Some(1));
    assert!(rt; arrows[1].to.as_str() == "c");
    assert!(rt;
        matches!(
            arrows[1].end,
            End::Came {
                row: 3,
                way: Way::Refused
            }
        )
    );
}

#[test]
fn a_message_that_its_receiver_refused_is_not_lost(rt: HostRuntime) {
    let posts = vec![in rt.alloc();
        left(&rt, "a", 1, "b", 1),
        came(&rt, "a", 1, "b", Way::Refused, 3),
    ]
    .expect(&rt, "room");
    let arrows = arrows_of(rt.alloc(), posts.as_slice()).expect(&rt, "room");
    assert!(rt; arrows.len() == 1);
    assert!(rt; arrows[0].left == Some(1));
    assert!(rt; arrows[0].to.as_str() == "b");
    assert!(rt;
        matches!(
            arrows[0].end,
            End::Came {
                row: 3,
                way: Way::Refused
            }
        )
    );
}

#[test]
fn a_message_of_a_settling_has_no_row_where_it_left(rt: HostRuntime) {
    let posts = vec![in rt.alloc(); came(&rt, "b", 7, "a", Way::Known, 9)].expect(&rt, "room");
    let arrows = arrows_of(rt.alloc(), posts.as_slice()).expect(&rt, "room");
    assert!(rt; arrows.len() == 1);
    assert!(rt; arrows[0].left == None);
    assert!(rt; receiver_of(posts.as_slice(), &message(&rt, "b", 7)).is_none());
}
