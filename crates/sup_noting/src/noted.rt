//! A log that grows by a line.

ghost use Rattle.std.specs.Prelude.{◌≡◌, ◌++◌, ◌∷◌, [], IfOk, OnErr, OnOk};
ghost use Rattle.sup_noting.specs.Noted.{answered, looked, noted_of, refused, row_in, settled, unsettled};

use crate::posts::{add_came, add_left, add_refused, place_of};
use crate::turns::{add_effects, add_effects_of, add_turn};
use std::alloc::{AllocError, Global};
use sup_local_sup::Effect;
use sup_model::Step;
use sup_picture::{Caption, Change, Log, Mark, Post, Row};
use sup_replica::{Done, Refusal};
use sup_specs::NodeName;
use sup_text::{answer_text, refusal_text, settled_text};

/// Notes a line that made this step, and what was answered: at which node, and with which number its letter left.
///
/// # Errors
///
/// `AllocError` where memory was refused. The log is as it was then.
pub fn note_answer(
    alloc: Global,
    log: &mut Log,
    line: &[u8],
    step: &Step,
    at: &NodeName,
    done: &Done,
    number: Option<u64>,
) -> Result<(), AllocError>
    ensures rows { OnOk result ((noted_of log.new).rows ≡ (answered (noted_of log.old) line.now step.now at.now done.now number).rows) }
    ensures posts { OnOk result ((noted_of log.new).posts ≡ (answered (noted_of log.old) line.now step.now at.now done.now number).posts) }
    ensures changes { OnOk result ((noted_of log.new).changes ≡ (answered (noted_of log.old) line.now step.now at.now done.now number).changes) }
    ensures same { OnErr result (noted_of log.new ≡ noted_of log.old) }
{
    let row = log.rows.len() as u64;
    let said = answer_text(alloc, at, done, number)?;
    let mut posts = Vec::new(alloc);
    add_came(&mut posts, step, at, &done.reply, row)?;
    add_left(&mut posts, at, &done.out, number, row)?;
    let mut changes = Vec::new(alloc);
    add_turn(alloc, &mut changes, step, row)?;
    add_effects(alloc, &mut changes, at, done.effects.as_slice(), row)?;
    let row = row_of(alloc, &log.rows, line, said.as_bytes(), Mark::Done(*at))?;
    add(log, row, posts, changes)
}

/// Notes a line whose step was refused.
///
/// # Errors
///
/// `AllocError` where memory was refused. The log is as it was then.
pub fn note_refusal(
    alloc: Global,
    log: &mut Log,
    line: &[u8],
    step: &Step,
    refusal: Refusal,
) -> Result<(), AllocError>
    ensures rows { OnOk result ((noted_of log.new).rows ≡ (refused (noted_of log.old) line.now step.now refusal).rows) }
    ensures posts { OnOk result ((noted_of log.new).posts ≡ (refused (noted_of log.old) line.now step.now refusal).posts) }
    ensures changes { OnOk result ((noted_of log.new).changes ≡ (refused (noted_of log.old) line.now step.now refusal).changes) }
    ensures same { OnErr result (noted_of log.new ≡ noted_of log.old) }
{
    let row = log.rows.len() as u64;
    let said = refusal_text(alloc, refusal)?;
    let at = place_of(log.posts.as_slice(), step);
    let mut posts = Vec::new(alloc);
    add_refused(log.posts.as_slice(), &mut posts, step, refusal, row)?;
    let row = row_of(alloc, &log.rows, line, said.as_bytes(), Mark::Refused(at))?;
    add(log, row, posts, Vec::new(alloc))
}

/// Notes a line by which the nodes settled: how many messages they sent, and what is to be done.
///
/// # Errors
///
/// `AllocError` where memory was refused. The log is as it was then.
pub fn note_settling(
    alloc: Global,
    log: &mut Log,
    line: &[u8],
    messages: u64,
    effects: &[(NodeName, Effect)],
) -> Result<(), AllocError>
    ensures rows { OnOk result ((noted_of log.new).rows ≡ (settled (noted_of log.old) line.now messages effects.now).rows) }
    ensures posts { OnOk result ((noted_of log.new).posts ≡ (settled (noted_of log.old) line.now messages effects.now).posts) }
    ensures changes { OnOk result ((noted_of log.new).changes ≡ (settled (noted_of log.old) line.now messages effects.now).changes) }
    ensures same { OnErr result (noted_of log.new ≡ noted_of log.old) }
{
    let row = log.rows.len() as u64;
    let said = settled_text(alloc, messages, effects)?;
    let mut changes = Vec::new(alloc);
    add_effects_of(alloc, &mut changes, effects, row)?;
    let row = row_of(alloc, &log.rows, line, said.as_bytes(), Mark::Everywhere)?;
    add(log, row, Vec::new(alloc), changes)
}

/// Notes a line whose settling was cut short.
///
/// # Errors
///
/// `AllocError` where memory was refused. The log is as it was then.
pub fn note_unsettled(
    alloc: Global,
    log: &mut Log,
    line: &[u8],
    refusal: Refusal,
) -> Result<(), AllocError>
    ensures rows { OnOk result ((noted_of log.new).rows ≡ (unsettled (noted_of log.old) line.now refusal).rows) }
    ensures posts { OnOk result ((noted_of log.new).posts ≡ (unsettled (noted_of log.old) line.now refusal).posts) }
    ensures changes { OnOk result ((noted_of log.new).changes ≡ (unsettled (noted_of log.old) line.now refusal).changes) }
    ensures same { OnErr result (noted_of log.new ≡ noted_of log.old) }
{
    let refusal = refusal_text(alloc, refusal)?;
    let row = row_of(alloc, &log.rows, line, refusal.as_bytes(), Mark::Everywhere)?;
    log.rows.push(row)?;
    Ok(())
}

/// Notes a line that makes no step.
///
/// # Errors
///
/// `AllocError` where memory was refused. The log is as it was then.
pub fn note_look(alloc: Global, log: &mut Log, line: &[u8]) -> Result<(), AllocError>
    ensures rows { OnOk result ((noted_of log.new).rows ≡ (looked (noted_of log.old) line.now).rows) }
    ensures posts { OnOk result ((noted_of log.new).posts ≡ (looked (noted_of log.old) line.now).posts) }
    ensures changes { OnOk result ((noted_of log.new).changes ≡ (looked (noted_of log.old) line.now).changes) }
    ensures same { OnErr result (noted_of log.new ≡ noted_of log.old) }
{
    let row = row_of(alloc, &log.rows, line, b"", Mark::Nowhere)?;
    log.rows.push(row)?;
    Ok(())
}

// The next row.
fn row_of(
    alloc: Global,
    rows: &Vec<Row>,
    line: &[u8],
    said: &[u8],
    mark: Mark,
) -> Result<Row, AllocError>
    ensures { IfOk result (λ row. row ≡ row_in rows.now.items line.now said.now mark) }
{
    let row = rows.len() as u64;
    let line = Caption::new(line.to_vec(alloc)?);
    let said = Caption::new(said.to_vec(alloc)?);
    Ok(Row {
        row,
        line,
        said,
        mark,
    })
}

// Adds a row with its posts and changes, or leaves the log as it is: all room is taken before anything is added.
fn add(log: &mut Log, row: Row, posts: Vec<Post>, changes: Vec<Change>) -> Result<(), AllocError>
    ensures rows { OnOk result (log.new.rows.items ≡ log.old.rows.items ++ row ∷ []) }
    ensures posts { OnOk result (log.new.posts.items ≡ log.old.posts.items ++ posts.items) }
    ensures changes { OnOk result (log.new.changes.items ≡ log.old.changes.items ++ changes.items) }
    ensures same { OnErr result (noted_of log.new ≡ noted_of log.old) }
{
    let mut posts = posts;
    let mut changes = changes;
    log.rows.reserve(1)?;
    log.posts.reserve(posts.len())?;
    log.changes.append(&mut changes)?;
    let Ok(()) = log.posts.append(&mut posts) else {
        unreachable!()
    };
    log.rows.push_reserved(row);
    Ok(())
}
