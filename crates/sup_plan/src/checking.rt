//! Whether a plan can be run.
ghost use Rattle.std.specs.Prelude.{◌≡◌, ◌↔◌, IsTrue};
ghost use Rattle.std.specs.List.{AllPass, IsDistinct};
ghost use Rattle.std.specs.Str.{bytes_eq};
ghost use Rattle.sup_plan.specs.Plans.{is_among, is_peer, may_do, may_tell, has_ends, is_same_link, IsPlan};

use crate::plan::{Command, Plan, Route};
use sup_replica::{Act, Event};
use sup_specs::NodeName;

// As few nodes as a plan may have, and as many.
const FEWEST: usize = 2;

const MOST: usize = 5;

/// Whether a plan can be run: it has 2 to 5 nodes, whose names differ; each command is told to one of them, and is no delivery; each
/// ship and push is to another one; each script is of a link from one of them to another, and no two are of the same link.
pub fn is_plan(plan: &Plan) -> bool
    ensures { IsTrue result ↔ IsPlan plan.now }
{
    let nodes = plan.nodes.as_slice();
    if nodes.len() < FEWEST || nodes.len() > MOST {
        return false;
    }
    differ(nodes)
        && are_told(nodes, &plan.commands)
        && are_linked(nodes, &plan.scripts)
        && are_single(&plan.scripts)
}

// Whether the names differ. There are few: each is looked for among the later ones.
fn differ(names: &[NodeName]) -> bool
    ensures { IsTrue result ↔ IsDistinct bytes_eq names.now }
{
    let Some((name, others)) = names.split_first() else {
        return true;
    };
    !others.contains(name) && differ(others)
}

// Whether the nodes may be told all this.
fn are_told(nodes: &[NodeName], commands: &[Command]) -> bool
    ensures { IsTrue result ↔ AllPass (may_tell nodes.now) commands.now }
{
    commands.iter().all(|command| may_tell(nodes, command))
}

/// Whether the command is to one of the nodes, which may do that.
pub fn may_tell(nodes: &[NodeName], command: &Command) -> bool
    ensures { result ≡ may_tell nodes.now command.entry.now }
{
    is_among(nodes, &command.node) && may_do(nodes, &command.node, &command.act)
}

// Whether it may be told to this node.
fn may_do(nodes: &[NodeName], node: &NodeName, act: &Act) -> bool
    ensures { result ≡ may_do nodes.now node.now act.now }
{
    match act {
        Act::Event(Event::Ship(to)) => is_peer(nodes, node, to),
        Act::Event(Event::Push(to)) => is_peer(nodes, node, to),
        Act::Event(Event::Deliver(_)) => false,
        Act::Event(_) => true,
        Act::Stop | Act::Restart => true,
    }
}

/// Whether the node is one of these.
pub fn is_among(nodes: &[NodeName], name: &NodeName) -> bool
    ensures { result ≡ is_among nodes.now name.now }
{
    nodes.contains(name)
}

/// Whether the node `to` is one of these, and not the other one.
pub fn is_peer(nodes: &[NodeName], node: &NodeName, to: &NodeName) -> bool
    ensures { result ≡ is_peer nodes.now node.now to.now }
{
    is_among(nodes, to) && node != to
}

// Whether the scripts are of links between the nodes.
fn are_linked(nodes: &[NodeName], scripts: &[Route]) -> bool
    ensures { IsTrue result ↔ AllPass (has_ends nodes.now) scripts.now }
{
    scripts.iter().all(|route| is_among(nodes, &route.from)
        && is_peer(nodes, &route.from, &route.to))
}

// Whether no two scripts are of one link. Five nodes have 20 links between them, so where there are more scripts one of the first 20 is
// found again, and the search ends there.
fn are_single(scripts: &[Route]) -> bool
    ensures { IsTrue result ↔ IsDistinct is_same_link scripts.now }
{
    let Some((route, others)) = scripts.split_first() else {
        return true;
    };
    !others.iter().any(|other| is_same_link(route, other)) && are_single(others)
}

/// Whether the scripts are of one link.
pub fn is_same_link(route: &Route, other: &Route) -> bool
    ensures { result ≡ is_same_link route.now other.now }
{
    route.from == other.from && route.to == other.to
}
