//! The command `place`: where each of some children is placed.

ghost use Rattle.std.specs.Prelude.{◌≡◌, ◌≤◌, ◌+◌, length, Err, IfSome};
ghost use Rattle.sup_jobs.specs.Ends.{Asks, EndsAt, TakesAtMost, TakesFor};
ghost use Rattle.sup_placing.specs.Placing.{Places, placement};

use crate::fault::fault_of;
use crate::placing::{Placing, read_placing};
use crate::text::placing_text;
use std::alloc::Global;
use std::io::{Read, Write};
use sup_jobs::{Ended, Fault, LIMIT, finish, put_all, read_input};
use sup_placement::Weigh;

/// Places the children that the reader names among the members that it names, and answers how
/// that ended.
pub fn place_children<G: Weigh, R: Read, W: Write, E: Write>(
    alloc: Global,
    weigher: &G,
    reader: &mut R,
    writer: &mut W,
    errors: &mut E,
) -> Ended
    ensures places { Places G.weight_of (R.remaining reader.old) (R.remaining reader.new)
        (W.contents writer.old) (W.contents writer.new) (E.contents errors.old)
        (E.contents errors.new) result }
    ensures taken { TakesAtMost (LIMIT + 1) (R.remaining reader.old) (R.remaining reader.new) }
{
    let end = place_input(alloc, weigher, reader, writer);
    finish(errors, end)
}

fn place_input<G: Weigh, R: Read, W: Write>(
    alloc: Global,
    weigher: &G,
    reader: &mut R,
    writer: &mut W,
) -> Result<(), Fault>
    ensures ends { IfSome (R.remaining reader.old) (λ bytes.
        EndsAt (placement G.weight_of) bytes (W.contents writer.old) (W.contents writer.new) result) }
    ensures taken { TakesFor result (R.remaining reader.old) (R.remaining reader.new) }
{
    let input = read_input(alloc, reader)?;
    place_bytes(alloc, weigher, input.as_slice(), writer)
}

// The whole input is checked before anything is written.
fn place_bytes<G: Weigh, W: Write>(
    alloc: Global,
    weigher: &G,
    input: &[u8],
    writer: &mut W,
) -> Result<(), Fault>
    requires { length input.now ≤ LIMIT }
    ensures ends { EndsAt (placement G.weight_of) input.now
        (W.contents writer.old) (W.contents writer.new) result }
    // The device fails only once there is something to write.
    ensures device { result ≡ Err Fault.Device → Asks (placement G.weight_of) (placement G.weight_of).PrintsShort
        input.now (W.contents writer.old) (W.contents writer.new) }
{
    let Placing { members, ids } = match read_placing(alloc, input) {
        Ok(placing) => placing,
        Err(fault) => return Err(fault_of(fault)),
    };
    let text = placing_text(alloc, weigher, members.as_slice(), ids.as_slice())?;
    put_all(writer, text.as_bytes())?;
    Ok(())
}
