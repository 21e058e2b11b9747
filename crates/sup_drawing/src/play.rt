//! The lines of a script, one after another, and the log that they leave.

ghost use Rattle.std.specs.Prelude.{◌≡◌, All, OnOk, false};
ghost use Rattle.sup_world.specs.CarriedSteps.{has_bytes};
ghost use Rattle.sup_world.specs.SeenNodes.{sites_of};
ghost use Rattle.sup_noting.specs.Noted.{noted_of};
ghost use Rattle.sup_drawing.specs.Lines.{LinePlayed, LinesPlayed, SettlingNoted, StepPlayed, IsDry, caption_of, captions_of, played};

use std::alloc::{AllocError, Global};
use sup_lines::{Line, NumberedLine};
use sup_model::Step;
use sup_noting::{note_answer, note_look, note_refusal, note_settling, note_unsettled};
use sup_picture::Log;
use sup_placement::Weigh;
use sup_world::World;

/// Plays the lines in order, and notes what each told. The captions are their texts, by the row in which a line stands.
///
/// # Errors
///
/// `AllocError` where memory was refused to the log.
pub fn play_lines<G: Weigh>(
    alloc: Global,
    world: &mut World<G>,
    log: &mut Log,
    captions: &[NumberedLine],
    lines: &[Line],
) -> Result<(), AllocError>
    requires { All IsDry lines.now }
    ensures { OnOk result (LinesPlayed G.weight_of captions.now (played world.old log.old) lines.now (played world.new log.new)) }
{
    for line in lines {
        play_line(alloc, world, log, captions, line)?;
    }
    Ok(())
}

// Plays a line, and notes what it told.
fn play_line<G: Weigh>(
    alloc: Global,
    world: &mut World<G>,
    log: &mut Log,
    captions: &[NumberedLine],
    line: &Line,
) -> Result<(), AllocError>
    requires { IsDry line.now }
    ensures { OnOk result (LinePlayed G.weight_of captions.now (played world.old log.old) line.now (played world.new log.new)) }
{
    let caption = caption_of(captions, log.rows.len());
    match line {
        Line::Step(step) => play_step(alloc, world, log, caption, step),
        Line::Settle => play_settling(alloc, world, log, caption),
        Line::Show(_)
        | Line::Inspect(_)
        | Line::Image(_)
        | Line::Where { .. }
        | Line::Message { .. } => note_look(alloc, log, caption),
    }
}

// Makes a step, and notes its answer.
fn play_step<G: Weigh>(
    alloc: Global,
    world: &mut World<G>,
    log: &mut Log,
    caption: &[u8],
    step: &Step,
) -> Result<(), AllocError>
    requires { has_bytes step.now ≡ false }
    ensures { OnOk result (StepPlayed G.weight_of caption.now (played world.old log.old) step.now (played world.new log.new)) }
{
    match world.step(step) {
        Ok(answer) => note_answer(
            alloc,
            log,
            caption,
            step,
            &answer.at,
            &answer.done,
            answer.number,
        ),
        Err(refusal) => note_refusal(alloc, log, caption, step, refusal),
    }
}

// Has the nodes exchange all that they know, and notes what that told.
fn play_settling<G: Weigh>(
    alloc: Global,
    world: &mut World<G>,
    log: &mut Log,
    caption: &[u8],
) -> Result<(), AllocError>
    ensures { OnOk result (SettlingNoted G.weight_of caption.now (sites_of world.old) (noted_of log.old) (sites_of world.new) (noted_of log.new)) }
{
    match world.settle() {
        Ok(settled) => note_settling(
            alloc,
            log,
            caption,
            settled.messages,
            settled.effects.as_slice(),
        ),
        Err(refusal) => note_unsettled(alloc, log, caption, refusal),
    }
}

// The text of the line in this row.
fn caption_of<'a>(captions: &'a [NumberedLine<'a>], row: usize) -> &'a [u8]
    ensures { result.now ≡ caption_of (captions_of captions.entry.now) row }
{
    match captions.get(row) {
        Some(line) => line.bytes,
        None => b"",
    }
}
