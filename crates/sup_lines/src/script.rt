//! Scripts: the nodes of a world, and the lines after them.

ghost use Rattle.std.specs.Prelude.{map};
ghost use Rattle.sup_lines.specs.Script.{ReadsAll, each_of, line_of, script_of};

use crate::fault::ScriptFault;
use crate::line::{Line, read_line};
use crate::numbered::{NumberedLine, number_lines};
use crate::opening::read_opening;
use std::alloc::Global;
use sup_specs::NodeName;

/// The nodes, and what the lines after them ask for.
#[derive(Drop)]
pub struct Script {
    /// Distinct names, 1 to 16.
    pub nodes: Vec<NodeName>,
    /// One for each line after that of the nodes, but for skipped ones.
    pub lines: Vec<Line>,
}

/// Reads a script.
///
/// # Errors
///
/// - `ScriptFault::BadLine` where a line is bad, with the number of the first such line from 1, or 0
///   where all lines are skipped.
/// - `ScriptFault::OutOfMemory` where memory was refused. It may stand in place of any answer.
pub fn read_script(alloc: Global, bytes: &[u8]) -> Result<Script, ScriptFault>
    ensures { ReadsAll (λ s. (s.nodes.items, s.lines.items)) result (script_of bytes.now) }
{
    let lines = number_lines(alloc, bytes)?;
    match lines.as_slice() {
        [] => Err(ScriptFault::BadLine(0)),
        [first, others @ ..] => match read_opening(alloc, first.bytes) {
            Ok(nodes) => {
                let lines = read_lines(alloc, others)?;
                Ok(Script { nodes, lines })
            }
            Err(fault) => Err(fault.at(first.number)),
        },
    }
}

fn read_lines(alloc: Global, lines: &[NumberedLine]) -> Result<Vec<Line>, ScriptFault>
    ensures { ReadsAll (λ v. v.items) result
        (each_of line_of (map (λ l. (l.number, l.bytes.now)) lines.now)) }
{
    let mut read = Vec::new(alloc);
    for line in lines {
        match read_line(alloc, line.bytes) {
            Ok(said) => read.push(said)?,
            Err(fault) => return Err(fault.at(line.number)),
        }
    }
    Ok(read)
}
