//! The picture of a script.

ghost use Rattle.std.specs.Prelude.{◌≡◌, All, IfErr, IfOk, string_bytes};
ghost use Rattle.sup_drawing.specs.Lines.{IsDry, captions_of};
ghost use Rattle.sup_noting.specs.Noted.{noted_of};
ghost use Rattle.sup_drawing.specs.Drawn.{DrawsScript, nothing_noted};
ghost use Rattle.sup_world.specs.WorldNames.{AreWorldNames, IsFaultOf};

use crate::play::play_lines;
use std::alloc::Global;
use sup_lines::{Line, NumberedLine};
use sup_picture::{Log, picture_of};
use sup_placement::Weigh;
use sup_replica::Config;
use sup_specs::NodeName;
use sup_svg::svg_of;
use sup_world::{World, WorldFault};

/// The SVG text of the picture of these lines, played from a new world of these nodes, each with this setting. The captions are
/// the lines' texts, in the order of the lines; a line behind them has none.
///
/// # Errors
///
/// `BadNames` unless there are 1 to 16 names that differ; `OutOfMemory` where there are, and memory was refused.
pub fn draw_lines<G: Weigh + Copy + Drop>(
    alloc: Global,
    weigher: &G,
    config: Config,
    nodes: &[NodeName],
    captions: &[NumberedLine],
    lines: &[Line],
) -> Result<String, WorldFault>
    requires { All IsDry lines.now }
    ensures draws { IfOk result (λ s. DrawsScript G.weight_of config nodes.now (captions_of captions.now) lines.now (string_bytes s)) }
    ensures named { IfOk result (λ _. AreWorldNames nodes.now) }
    ensures fault { IfErr result (IsFaultOf nodes.now) }
{
    let mut world = World::new(alloc, nodes, config, *weigher)?;
    let mut log = empty_log(alloc);
    play_lines(alloc, &mut world, &mut log, captions, lines)?;
    let nodes = nodes.to_vec(alloc)?;
    let picture = picture_of(alloc, nodes, log)?;
    let text = svg_of(alloc, &picture)?;
    Ok(text)
}

// A log of nothing.
fn empty_log(alloc: Global) -> Log
    ensures { noted_of result ≡ nothing_noted }
{
    Log {
        rows: Vec::new(alloc),
        posts: Vec::new(alloc),
        changes: Vec::new(alloc),
    }
}
