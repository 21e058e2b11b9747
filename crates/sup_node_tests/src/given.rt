//! Nodes of the tests, by their images. A test ends where memory is refused.
use std::process::Abort;
use sup_local_sup::Effects;
use sup_node::Node;
use sup_placement::FlatWeigh;
use sup_replica::{Config, Refusal};
use sup_specs::{ChildId, NodeName};
use sup_wire::{Image, decode_image};

/// Of a member with a child.
pub(crate) const IMAGE: &str = "\
    {\"boot\":1,\"count\":2,\"ctx\":{\"cloud\":[],\"vector\":{\"a\":2}},\"kind\":\"image\",\
    \"node\":\"a\",\"rows\":[[\"member\",\"a\",[\"a\",1],{\"label\":\"\",\"status\":\"open\"}],\
    [\"child\",\"web\",[\"a\",2],{\"arg\":\"\",\"kind\":\"worker\",\"restart\":\"permanent\",\
    \"shutdown\":5000}]],\"v\":2}";

pub(crate) fn name(rt: &impl Abort, text: &str) -> NodeName {
    NodeName::parse(text).expect(rt, "a node's name")
}

pub(crate) fn child(rt: &(impl Abort + AllocGlobal), id: &str) -> ChildId {
    ChildId::parse(rt.alloc(), id).expect(rt, "an id")
}

/// What comes of a restart from an image.
pub(crate) fn restarted(
    rt: &impl AllocGlobal,
    image: Image,
) -> Result<(Node<FlatWeigh>, Effects), Refusal> {
    Node::from_image(rt.alloc(), image, Config::default(), &FlatWeigh)
}

/// The same, where the image has this text.
pub(crate) fn restarted_by(
    rt: &(impl Abort + AllocGlobal),
    text: &str,
) -> Result<(Node<FlatWeigh>, Effects), Refusal> {
    let image = decode_image(rt.alloc(), text.as_bytes()).expect(rt, text);
    restarted(rt, image)
}

/// The node that goes on from this text.
pub(crate) fn node_by(rt: &(impl Abort + AllocGlobal), text: &str) -> Node<FlatWeigh> {
    let (node, _) = restarted_by(rt, text).expect(rt, text);
    node
}
