//! Parts of a plan, as copies.
ghost use Rattle.std.specs.Prelude.{◌≡◌, IfOk, find};
ghost use Rattle.std.specs.Option.{option_copied};
ghost use Rattle.sup_replica.specs.Nodes.{is_named};
ghost use Rattle.sup_plan.specs.Parts.{commands_of, script_between, is_between};

use crate::plan::{Command, Plan, Route};
use std::alloc::{AllocError, Global};
use sup_links::LinkScript;
use sup_specs::NodeName;

impl Command {
    /// A copy, which equals its source.
    ///
    /// # Errors
    ///
    /// `AllocError` where memory for it was refused.
    pub fn try_clone(&self, alloc: Global) -> Result<Command, AllocError>
        ensures { IfOk result (λ copy. copy ≡ self.entry.now) }
    {
        Ok(Command {
            node: self.node,
            act: self.act.try_clone(alloc)?,
            now: self.now,
        })
    }
}

impl Plan {
    /// The commands of a node, in their order.
    ///
    /// # Errors
    ///
    /// `AllocError` where memory for them was refused.
    pub fn commands_of(&self, alloc: Global, node: &NodeName) -> Result<Vec<Command>, AllocError>
        ensures { IfOk result (λ commands. commands.items ≡ commands_of node.now self.now.commands.items) }
    {
        let mut commands = Vec::new(alloc);
        for command in &self.commands {
            if is_to(node, command) {
                commands.push(command.try_clone(alloc)?)?;
            }
        }
        Ok(commands)
    }

    /// The script of the link from one node to another; where the plan has none, one that lets all through.
    ///
    /// # Errors
    ///
    /// `AllocError` where memory for it was refused.
    pub fn script_between(
        &self,
        alloc: Global,
        from: &NodeName,
        to: &NodeName,
    ) -> Result<LinkScript, AllocError>
        ensures { IfOk result (λ script. script.0.items ≡ script_between from.now to.now self.now.scripts.items) }
    {
        match find_route(&self.scripts, from, to) {
            Some(route) => Ok(LinkScript(route.script.0.to_vec(alloc)?)),
            None => Ok(LinkScript(Vec::new(alloc))),
        }
    }
}

// The script of the link from one node to another.
fn find_route<'a>(scripts: &'a [Route], from: &NodeName, to: &NodeName) -> Option<&'a Route>
    ensures { option_copied result ≡ find (is_between from.now to.now) scripts.now }
{
    scripts.iter().find(|route| is_between(from, to, route))
}

// Whether the command is to this node.
#[tactic(auto, using(crate::proofs::ComparedNameLaws::named))]
fn is_to(node: &NodeName, command: &Command) -> bool
    ensures { result ≡ is_named node.now command.entry.now.node }
{
    *node == command.node
}

#[tactic(auto, using(crate::proofs::ComparedNameLaws::named))]
fn is_between(from: &NodeName, to: &NodeName, route: &Route) -> bool
    ensures { result ≡ is_between from.now to.now route.now }
{
    *from == route.from && *to == route.to
}
