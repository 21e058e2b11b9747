//! The line of a command.

ghost use Rattle.std.specs.Prelude.{◌≡◌};
ghost use Rattle.sup_cluster_lines.specs.Commands.{command_in, command_of};

use sup_lines::Line;
use sup_model::Step;
use sup_plan::Command;
use sup_plan::checking::may_tell;
use sup_specs::NodeName;

/// The command that a line of a script asks for; none where the line is no act at a node, where its save is told to fail, or where these
/// nodes may not be told it ([`may_tell`]).
pub fn command_of(nodes: &[NodeName], line: Line) -> Option<Command>
    ensures { result ≡ command_of nodes.now line }
{
    match line {
        Line::Step(step) => command_in(nodes, step),
        _ => None,
    }
}

fn command_in(nodes: &[NodeName], step: Step) -> Option<Command>
    ensures { result ≡ command_in nodes.now step }
{
    match step {
        Step::Node {
            at,
            act,
            now,
            saves,
        } => {
            let command = Command { node: at, act, now };
            if saves && may_tell(nodes, &command) {
                Some(command)
            } else {
                None
            }
        }
        _ => None,
    }
}
