//! Nodes that go on from an image: in the next boot, and where a number is spent.
use crate::given::{IMAGE, child, name, node_by, restarted, restarted_by};
use std::process::Abort;
use sup_local_sup::{Effect, Effects, Incarnation};
use sup_node::Node;
use sup_placement::FlatWeigh;
use sup_replica::{Event, Refusal, Reply};
use sup_specs::{ChildSpec, Kind, MAX, Restart, Shutdown, Text};
use sup_tables::Tables;
use sup_wire::Image;

/// A node in its last boot.
const BOOT_SPENT: &str = "\
    {\"boot\":9007199254740991,\"count\":0,\"ctx\":{\"cloud\":[],\"vector\":{}},\"kind\":\"image\",\
    \"node\":\"a\",\"rows\":[],\"v\":2}";

/// A node that has counted its last change.
const COUNT_SPENT: &str = "\
    {\"boot\":1,\"count\":9007199254740991,\"ctx\":{\"cloud\":[],\"vector\":{}},\"kind\":\"image\",\
    \"node\":\"a\",\"rows\":[],\"v\":2}";

/// A node that has given its last dot, with a child.
const DOTS_SPENT: &str = "\
    {\"boot\":1,\"count\":1,\"ctx\":{\"cloud\":[],\"vector\":{\"a\":9007199254740991}},\
    \"kind\":\"image\",\"node\":\"a\",\"rows\":[[\"child\",\"x\",[\"a\",1],{\"arg\":\"\",\
    \"kind\":\"worker\",\"restart\":\"permanent\",\"shutdown\":5000}]],\"v\":2}";

// Whether the child of the image is all that is started, as the first run of the next boot.
fn starts_web(effects: &Effects) -> bool {
    match effects.as_slice() {
        [Effect::Start { id, inc, .. }] => {
            id.as_str() == "web" && *inc == Incarnation { boot: 2, k: 1 }
        }
        _ => false,
    }
}

#[test]
fn a_node_goes_on_from_its_image_in_the_next_boot(rt: HostRuntime) {
    let (node, effects) = restarted_by(&rt, IMAGE).expect(&rt, "a node");
    assert!(rt; node.name().as_str() == "a" && node.boot() == 2);
    assert!(rt; node.count() == 2 && node.held() == 0);
    assert!(rt; node.tables().row_count() == 2 && node.kept().len() == 1);
    assert!(rt; starts_web(&effects));
    let run = node.kept().get(&child(&rt, "web")).map(|entry| entry.inc);
    assert!(rt; run == Some(Incarnation { boot: 2, k: 1 }));
}

// The image of a node that has counted so many changes.
fn counted(rt: &(impl Abort + AllocGlobal), count: u64) -> Image {
    Image {
        node: name(rt, "a"),
        boot: 1,
        count,
        state: Tables::empty(rt.alloc()),
    }
}

#[test]
fn no_node_goes_on_where_its_boot_or_its_count_would_pass_the_greatest_number(rt: HostRuntime) {
    let spent = Some(Refusal::CountSpent);
    assert!(rt; restarted_by(&rt, BOOT_SPENT).err() == spent);
    assert!(rt; restarted(&rt, counted(&rt, MAX + 1)).err() == spent);
    assert!(rt; restarted(&rt, counted(&rt, MAX)).is_ok());
}

fn start(rt: &(impl Abort + AllocGlobal), id: &str) -> Event {
    let spec = ChildSpec {
        kind: Kind::parse(rt.alloc(), "worker").expect(rt, "a kind"),
        arg: Text::parse(rt.alloc(), "").expect(rt, "a text"),
        restart: Restart::Permanent,
        shutdown: Shutdown::Millis(5000),
    };
    Event::Start(child(rt, id), spec)
}

// Why a start of a child is refused, if it is.
fn refusal(
    rt: &(impl Abort + AllocGlobal),
    node: &mut Node<FlatWeigh>,
    id: &str,
) -> Option<Refusal> {
    node.step(start(rt, id), 0, &FlatWeigh).err()
}

#[test]
fn a_node_that_counted_its_last_change_makes_none(rt: HostRuntime) {
    let mut node = node_by(&rt, COUNT_SPENT);
    assert!(rt; node.boot() == 2 && node.count() == MAX);
    assert!(rt; refusal(&rt, &mut node, "x") == Some(Refusal::CountSpent));
}

#[test]
fn a_node_that_gave_its_last_dot_adds_nothing_and_removes(rt: HostRuntime) {
    let mut node = node_by(&rt, DOTS_SPENT);
    assert!(rt; refusal(&rt, &mut node, "y") == Some(Refusal::DotsSpent));
    let removal = Event::Delete(child(&rt, "x"));
    let done = node.step(removal, 0, &FlatWeigh).expect(&rt, "an answer");
    assert!(rt; matches!(&done.reply, Reply::Removed(_)));
    assert!(rt; node.tables().row_count() == 0);
}
