//! Lines, and what they ask for.

use std::process::Abort;
use sup_asked::{Asked, read_asked};
use sup_replica::Event;
use sup_specs::NodeName;

fn asked(rt: &(impl Abort + AllocGlobal), line: &[u8]) -> Option<Asked> {
    let name = NodeName::parse("a").expect(rt, "a name");
    read_asked(rt.alloc(), &name, line).expect(rt, "room")
}

#[test]
fn each_line_asks_for_what_its_verb_says(rt: HostRuntime) {
    assert!(rt; matches!(asked(&rt, b"show"), Some(Asked::Show)));
    assert!(rt; matches!(asked(&rt, b"inspect"), Some(Asked::Inspect)));
    assert!(rt; matches!(asked(&rt, b"image"), Some(Asked::Image)));
    assert!(rt; matches!(asked(&rt, b"members"), Some(Asked::Members)));
    assert!(rt; matches!(asked(&rt, b"where www"), Some(Asked::Where(_))));
    assert!(rt; matches!(asked(&rt, b"join"), Some(Asked::Does(Event::Join(_), 0))));
    assert!(rt;
        matches!(
            asked(&rt, b"start web arg=x"),
            Some(Asked::Does(Event::Start(_, _), 0))
        )
    );
    assert!(rt;
        matches!(
            asked(&rt, b"drain b"),
            Some(Asked::Does(Event::Drain(_), 0))
        )
    );
    assert!(rt;
        matches!(
            asked(&rt, b"exit web 1.1 crash @7"),
            Some(Asked::Does(Event::Exit { .. }, 7))
        )
    );
}

#[test]
fn a_message_is_all_that_stands_behind_the_space(rt: HostRuntime) {
    match asked(&rt, b"deliver {\"a\": 1} x") {
        Some(Asked::Does(Event::Deliver(text), 0)) => {
            assert_eq!(rt; text.as_slice(), b"{\"a\": 1} x".as_slice());
        }
        _ => rt.panic("a message"),
    }
    assert!(rt;
        matches!(
            asked(&rt, b"deliver "),
            Some(Asked::Does(Event::Deliver(_), 0))
        )
    );
}

#[test]
fn what_is_no_line_of_one_node_asks_nothing(rt: HostRuntime) {
    for line in [
        b"".as_slice(),
        b"deliver",
        b"show a",
        b"show ",
        b" show",
        b"members a",
        b"stop",
        b"restart",
        b"settle",
        b"raw {}",
        b"message 1",
        b"join !fail",
        b"start",
        b"start  web",
        b"start web\r",
        b"start w\xff",
        b"nodes a",
    ] {
        assert!(rt; asked(&rt, line).is_none());
    }
}
