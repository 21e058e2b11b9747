//! Where names lead.
use crate::given::node_by;
use std::process::Abort;
use sup_node::{Node, Whereis};
use sup_placement::FlatWeigh;
use sup_specs::Name;

/// The other node is a member. One name's child is placed on it, and the other one's isn't there.
const NAMED: &str = "\
    {\"boot\":1,\"count\":4,\"ctx\":{\"cloud\":[],\"vector\":{\"a\":3,\"b\":1}},\"kind\":\"image\",\
    \"node\":\"a\",\"rows\":[[\"member\",\"b\",[\"b\",1],{\"label\":\"\",\"status\":\"open\"}],\
    [\"child\",\"web\",[\"a\",1],{\"arg\":\"\",\"kind\":\"worker\",\"restart\":\"permanent\",\
    \"shutdown\":5000}],[\"name\",\"api\",[\"a\",2],\"db\"],[\"name\",\"www\",[\"a\",3],\"web\"]],\
    \"v\":2}";

/// The same where the member drains.
const DRAINING: &str = "\
    {\"boot\":1,\"count\":4,\"ctx\":{\"cloud\":[],\"vector\":{\"a\":3,\"b\":1}},\"kind\":\"image\",\
    \"node\":\"a\",\"rows\":[[\"member\",\"b\",[\"b\",1],{\"label\":\"\",\"status\":\"draining\"}],\
    [\"child\",\"web\",[\"a\",1],{\"arg\":\"\",\"kind\":\"worker\",\"restart\":\"permanent\",\
    \"shutdown\":5000}],[\"name\",\"api\",[\"a\",2],\"db\"],[\"name\",\"www\",[\"a\",3],\"web\"]],\
    \"v\":2}";

fn called(rt: &(impl Abort + AllocGlobal), text: &str) -> Name {
    Name::parse(rt.alloc(), text).expect(rt, "a name")
}

fn is_unknown(node: &Node<FlatWeigh>, name: &Name) -> bool {
    matches!(node.whereis(name, &FlatWeigh), Ok(Whereis::Unknown))
}

fn is_gone(node: &Node<FlatWeigh>, name: &Name, id: &str) -> bool {
    match node.whereis(name, &FlatWeigh) {
        Ok(Whereis::Gone(child)) => child.as_str() == id,
        _ => false,
    }
}

fn is_unplaced(node: &Node<FlatWeigh>, name: &Name, id: &str) -> bool {
    match node.whereis(name, &FlatWeigh) {
        Ok(Whereis::Unplaced(child)) => child.as_str() == id,
        _ => false,
    }
}

// There is but one member that it can be on.
fn is_placed(node: &Node<FlatWeigh>, name: &Name, id: &str) -> bool {
    match node.whereis(name, &FlatWeigh) {
        Ok(Whereis::On(child, _)) => child.as_str() == id,
        _ => false,
    }
}

#[test]
fn a_name_leads_to_its_child_and_to_the_member_that_has_it(rt: HostRuntime) {
    let www = called(&rt, "www");
    let api = called(&rt, "api");
    let node = node_by(&rt, NAMED);
    assert!(rt; is_placed(&node, &www, "web"));
    assert!(rt; is_gone(&node, &api, "db"));
    assert!(rt; is_unknown(&node, &called(&rt, "web")));
    let draining = node_by(&rt, DRAINING);
    assert!(rt; is_unplaced(&draining, &www, "web"));
    assert!(rt; is_gone(&draining, &api, "db"));
}
