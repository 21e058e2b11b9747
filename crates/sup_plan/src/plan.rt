//! What nodes are to do in a run.
use sup_links::LinkScript;
use sup_replica::{Act, Config};
use sup_specs::NodeName;

/// An act that a node is told, at this moment.
#[derive(Drop)]
pub struct Command {
    pub node: NodeName,
    pub act: Act,
    pub now: u64,
}

/// The script of the link from one node to another.
#[derive(Drop)]
pub struct Route {
    pub from: NodeName,
    pub to: NodeName,
    pub script: LinkScript,
}

/// What nodes are to do in a run: each node's commands in their order, and what the links lose, double and hold. A link that
/// the plan has no script for lets all through.
#[derive(Drop)]
pub struct Plan {
    pub config: Config,
    pub nodes: Vec<NodeName>,
    pub commands: Vec<Command>,
    pub scripts: Vec<Route>,
}
