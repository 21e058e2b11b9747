//! A script is read, played and drawn.

ghost use Rattle.std.specs.Prelude.{◌≡◌, ◌≤◌, drop, length, Err, IfSome};
ghost use Rattle.sup_jobs.specs.Ends.{Asks, EndsAt, TakesFor};
ghost use Rattle.sup_drawing.specs.Lines.{captions_of};
ghost use Rattle.sup_supdraw.specs.DrawnScripts.{DrawsTo, drawing};

use std::alloc::Global;
use std::io::{Read, Write};
use sup_drawing::draw_lines;
use sup_jobs::{Ended, Fault, LIMIT, finish, put_all, read_input};
use sup_lines::{NumberedLine, Script, number_lines, read_script};
use sup_placement::Weigh;
use sup_placing::fault_of;
use sup_replica::Config;

/// Draws the script that the reader has, played from the world of its nodes, each with this setting: writes the picture's text,
/// tells a fault to the error writer, and answers how that ended. Nothing is written of a script with a bad line or of a longer
/// one than may be read, or where memory is refused; where the device fails, a front of the text at most.
pub fn draw<G: Weigh + Copy + Drop, R: Read, W: Write, E: Write>(
    alloc: Global,
    weigher: &G,
    config: Config,
    reader: &mut R,
    writer: &mut W,
    errors: &mut E,
) -> Ended
    ensures draws { DrawsTo G.weight_of config (R.remaining reader.old) (R.remaining reader.new)
        (W.contents writer.old) (W.contents writer.new) (E.contents errors.old) (E.contents errors.new) result }
{
    let end = draw_input(alloc, weigher, config, reader, writer);
    finish(errors, end)
}

// Reads a script, and draws it.
fn draw_input<G: Weigh + Copy + Drop, R: Read, W: Write>(
    alloc: Global,
    weigher: &G,
    config: Config,
    reader: &mut R,
    writer: &mut W,
) -> Result<(), Fault>
    ensures ends { IfSome (R.remaining reader.old) (λ bytes.
        EndsAt (drawing G.weight_of config) bytes (W.contents writer.old) (W.contents writer.new) result) }
    ensures taken { TakesFor result (R.remaining reader.old) (R.remaining reader.new) }
{
    let input = read_input(alloc, reader)?;
    draw_bytes(alloc, weigher, config, input.as_slice(), writer)
}

// The whole script is checked before its first step.
fn draw_bytes<G: Weigh + Copy + Drop, W: Write>(
    alloc: Global,
    weigher: &G,
    config: Config,
    input: &[u8],
    writer: &mut W,
) -> Result<(), Fault>
    requires { length input.now ≤ LIMIT }
    ensures ends { EndsAt (drawing G.weight_of config) input.now
        (W.contents writer.old) (W.contents writer.new) result }
    // The device fails only once there is something to write.
    ensures device { result ≡ Err Fault.Device → Asks (drawing G.weight_of config) (drawing G.weight_of config).PrintsShort
        input.now (W.contents writer.old) (W.contents writer.new) }
{
    let Script { nodes, lines } = match read_script(alloc, input) {
        Ok(script) => script,
        Err(fault) => return Err(fault_of(fault)),
    };
    let numbered = number_lines(alloc, input)?;
    let captions = behind_first(numbered.as_slice());
    // The nodes of a script make a world, so that memory alone is wanted.
    let Ok(text) = draw_lines(
        alloc,
        weigher,
        config,
        nodes.as_slice(),
        captions,
        lines.as_slice(),
    ) else {
        return Err(Fault::OutOfMemory);
    };
    put_all(writer, text.as_bytes())?;
    Ok(())
}

// The lines behind the first.
fn behind_first<'a>(lines: &'a [NumberedLine<'a>]) -> &'a [NumberedLine<'a>]
    ensures { captions_of result.now ≡ drop 1 (captions_of lines.entry.now) }
{
    match lines {
        [_, others @ ..] => others,
        [] => lines,
    }
}
