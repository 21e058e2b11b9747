//! The command `simulate`: a script is run from the world of its nodes.

ghost use Rattle.std.specs.Prelude.{◌≡◌, ◌≤◌, ◌+◌, length, Err, IfOk, IfSome, IsPermutation, IsSorted};
ghost use Rattle.sup_specs.specs.Values.{text_cmp};
ghost use Rattle.sup_jobs.specs.Ends.{Asks, EndsAt, TakesAtMost, TakesFor};
ghost use Rattle.sup_program.specs.SimulatedScripts.{SimulatesScript, simulation};

use crate::play::play;
use std::alloc::{AllocError, Global};
use std::io::{Read, Write};
use sup_jobs::{Ended, Fault, LIMIT, finish, read_input};
use sup_lines::{Script, read_script};
use sup_placement::Weigh;
use sup_placing::fault_of;
use sup_replica::Config;
use sup_specs::NodeName;
use sup_world::World;

/// Runs the script that the reader has, from the world of its nodes, each with this setting: writes what its lines print, and answers
/// how that ended, once a fault is told. A script with a bad line, or a longer one than may be read, runs no line.
pub fn simulate<G: Weigh + Copy + Drop, R: Read, W: Write, E: Write>(
    alloc: Global,
    weigher: &G,
    config: Config,
    reader: &mut R,
    writer: &mut W,
    errors: &mut E,
) -> Ended
    ensures simulates { SimulatesScript G.weight_of config (R.remaining reader.old) (R.remaining reader.new)
        (W.contents writer.old) (W.contents writer.new) (E.contents errors.old)
        (E.contents errors.new) result }
    ensures taken { TakesAtMost (LIMIT + 1) (R.remaining reader.old) (R.remaining reader.new) }
{
    let end = run_script(alloc, weigher, config, reader, writer);
    finish(errors, end)
}

// Reads a script, and runs it.
fn run_script<G: Weigh + Copy + Drop, R: Read, W: Write>(
    alloc: Global,
    weigher: &G,
    config: Config,
    reader: &mut R,
    writer: &mut W,
) -> Result<(), Fault>
    ensures ends { IfSome (R.remaining reader.old) (λ bytes.
        EndsAt (simulation G.weight_of config) bytes (W.contents writer.old) (W.contents writer.new) result) }
    ensures taken { TakesFor result (R.remaining reader.old) (R.remaining reader.new) }
{
    let input = read_input(alloc, reader)?;
    run_bytes(alloc, weigher, config, input.as_slice(), writer)
}

// The whole script is checked before its first step.
fn run_bytes<G: Weigh + Copy + Drop, W: Write>(
    alloc: Global,
    weigher: &G,
    config: Config,
    input: &[u8],
    writer: &mut W,
) -> Result<(), Fault>
    requires { length input.now ≤ LIMIT }
    ensures ends { EndsAt (simulation G.weight_of config) input.now
        (W.contents writer.old) (W.contents writer.new) result }
    // The device fails only once there is something to write.
    ensures device { result ≡ Err Fault.Device → Asks (simulation G.weight_of config) (simulation G.weight_of config).PrintsShort
        input.now (W.contents writer.old) (W.contents writer.new) }
{
    let Script { nodes, lines } = match read_script(alloc, input) {
        Ok(script) => script,
        Err(fault) => return Err(fault_of(fault)),
    };
    // The nodes of a script make a world, so that memory alone is wanted.
    let Ok(mut world) = World::new(alloc, nodes.as_slice(), config, *weigher) else {
        return Err(Fault::OutOfMemory);
    };
    let peers = by_name(alloc, nodes.as_slice())?;
    match play(
        alloc,
        weigher,
        &mut world,
        peers.as_slice(),
        lines.as_slice(),
        writer,
    ) {
        Ok(()) => Ok(()),
        Err(fault) => Err(fault),
    }
}

// The names in their order.
fn by_name(alloc: Global, names: &[NodeName]) -> Result<Vec<NodeName>, AllocError>
    ensures sorted { IfOk result (λ ordered. IsSorted text_cmp ordered.items) }
    ensures all { IfOk result (λ ordered. IsPermutation names.now ordered.items) }
{
    let mut ordered = Vec::from_slice(alloc, names)?;
    ordered.sort()?;
    Ok(ordered)
}
