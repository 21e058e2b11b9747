//! The whole script.

ghost use Rattle.std.specs.Prelude.{◌≡◌, [], IfOk, map};
ghost use Rattle.sup_lines.specs.Script.{ReadsAll};
ghost use Rattle.std.specs.List.{list_any};
ghost use Rattle.sup_cluster_lines.specs.Script.{all_behind, is_same_pair, plan_script_of};
ghost use Rattle.sup_cluster_lines.specs.Scripts.{TakesIn, asked_in, numbered, of_line};
ghost use Rattle.sup_cluster_lines.specs.Links.{link_in};

use crate::line::{PlanLine, read_plan_line};
use crate::nodes::read_opening;
use std::alloc::Global;
use sup_lines::{LineFault, NumberedLine, ScriptFault, number_lines};
use sup_plan::checking::is_same_link;
use sup_plan::{Command, Route};
use sup_specs::NodeName;

/// The nodes of a run of threads, the scripts of their links, and their commands, as [`read_plan_script`] gives them.
#[derive(Drop)]
pub struct PlanScript {
    /// Distinct names, 2 to 5.
    pub nodes: Vec<NodeName>,
    /// Each is between two of the nodes, and no two between the same in one direction.
    pub links: Vec<Route>,
    /// In the order of the lines.
    pub commands: Vec<Command>,
}

/// Reads a script of a run of threads.
///
/// # Errors
///
/// - `ScriptFault::BadLine` where a line is bad, with the number of the first such line from 1, or 0 where all lines are skipped.
/// - `ScriptFault::OutOfMemory` where memory was refused. It may stand in place of any answer.
pub fn read_plan_script(alloc: Global, bytes: &[u8]) -> Result<PlanScript, ScriptFault>
    ensures { ReadsAll (λ s. (s.nodes.items, asked_in s)) result (plan_script_of bytes.now) }
{
    let lines = number_lines(alloc, bytes)?;
    match lines.as_slice() {
        [] => Err(ScriptFault::BadLine(0)),
        [first, others @ ..] => match read_opening(alloc, first.bytes) {
            Ok(nodes) => {
                let script = read_lines(alloc, nodes, others)?;
                Ok(script)
            }
            Err(fault) => Err(of_line(first.number, fault)),
        },
    }
}

// The lines after that of the nodes.
fn read_lines(
    alloc: Global,
    nodes: Vec<NodeName>,
    lines: &[NumberedLine],
) -> Result<PlanScript, ScriptFault>
    ensures script { ReadsAll asked_in result (all_behind nodes.items ([], []) (numbered lines.now)) }
    ensures nodes { IfOk result (λ s. s.nodes.items ≡ nodes.items) }
{
    let mut script = PlanScript {
        nodes,
        links: Vec::new(alloc),
        commands: Vec::new(alloc),
    };
    for line in lines {
        match script.take_in(alloc, line.bytes) {
            Ok(()) => {}
            Err(fault) => return Err(of_line(line.number, fault)),
        }
    }
    Ok(script)
}

// A fault of the line of this number, as one of the script.
fn of_line(number: u64, fault: LineFault) -> ScriptFault
    ensures { result ≡ of_line number fault }
{
    match fault {
        LineFault::Bad => ScriptFault::BadLine(number),
        LineFault::OutOfMemory => ScriptFault::OutOfMemory,
    }
}

// Whether one of these links has the same ends.
fn is_linked(links: &[Route], route: &Route) -> bool
    ensures { result ≡ list_any (is_same_pair (link_in route.now)) (map link_in links.now) }
{
    links.iter().any(|link| is_same_link(route, link))
}

impl PlanScript {
    // Takes in a line, behind those before it. What is refused isn't kept.
    fn take_in(&mut self, alloc: Global, line: &[u8]) -> Result<(), LineFault>
        ensures same { self.new.nodes ≡ self.old.nodes }
        ensures takes { TakesIn self.old.nodes.items (asked_in self.old) line.now result (asked_in self.new) }
    {
        match read_plan_line(alloc, &self.nodes, line)? {
            PlanLine::Link(route) => {
                if !self.commands.is_empty() || is_linked(&self.links, &route) {
                    return Err(LineFault::Bad);
                }
                self.links.push(route)?;
            }
            PlanLine::Command(command) => self.commands.push(command)?,
        }
        Ok(())
    }
}
