//! The lines after that of the nodes: each is a link, or a command.

ghost use Rattle.std.specs.Prelude.{◌≡◌, true};
ghost use Rattle.sup_lines.specs.Words.{ReadsWhere, texts};
ghost use Rattle.sup_lines.specs.Script.{ReadsLine, is_plain};
ghost use Rattle.sup_cluster_lines.specs.Script.{said_in, said_of, words_say};

use crate::command::command_of;
use crate::link::read_link;
use std::alloc::Global;
use sup_lines::line::read_line;
use sup_lines::{LineFault, plain_text, words_of};
use sup_plan::{Command, Route};
use sup_specs::NodeName;

/// A line after that of the nodes.
#[derive(Drop)]
pub enum PlanLine {
    /// A link has this script.
    Link(Route),
    /// A node is told to do this.
    Command(Command),
}

/// What a line says, of these nodes.
///
/// # Errors
///
/// - `LineFault::Bad` where it says nothing: always where it isn't plain.
/// - `LineFault::OutOfMemory` where memory was refused. The words are listed first, so that it may stand in place of any answer to
///   a plain line.
#[tactic(auto, unfolding(crate::specs::Script::said_of))]
pub fn read_plan_line(alloc: Global, nodes: &[NodeName], line: &[u8]) -> Result<PlanLine, LineFault>
    ensures { ReadsLine said_in line.now result (said_of nodes.now line.now) }
{
    match plain_text(line) {
        Some(text) => {
            let words = words_of(alloc, text)?;
            read_words(alloc, nodes, line, words.as_slice())
        }
        None => Err(LineFault::Bad),
    }
}

#[tactic(auto, unfolding(crate::specs::Script::words_say))]
fn read_words(
    alloc: Global,
    nodes: &[NodeName],
    line: &[u8],
    words: &[&str],
) -> Result<PlanLine, LineFault>
    requires { is_plain line.now ≡ true }
    ensures { ReadsWhere said_in (is_plain line.now ≡ true) result (words_say nodes.now line.now (texts words.now)) }
{
    let Some((verb, others)) = words.split_first() else {
        return Err(LineFault::Bad);
    };
    if *verb == "link" {
        let route = read_link(alloc, nodes, others)?;
        return Ok(PlanLine::Link(route));
    }
    let line = read_line(alloc, line)?;
    match command_of(nodes, line) {
        Some(command) => Ok(PlanLine::Command(command)),
        None => Err(LineFault::Bad),
    }
}
