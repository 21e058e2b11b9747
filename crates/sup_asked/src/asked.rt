//! What a line asks of the one node that hears it.

ghost use Rattle.std.specs.Prelude.{◌≡◌, IfOk, None, string_bytes};
ghost use Rattle.sup_asked.specs.Asking.{asked_by, asked_by_act, asked_by_step, asked_in, asked_of, named};

use std::alloc::{AllocError, Global};
use sup_lines::line::read_line;
use sup_lines::{Line, LineFault, plain_text, value_after};
use sup_model::Step;
use sup_replica::{Act, Event, MessageText};
use sup_specs::{Name, NodeName};

/// What a node is asked.
#[derive(Drop)]
pub enum Asked {
    /// To do this at a moment.
    Does(Event, u64),
    /// What it shows.
    Show,
    /// What it shows, and how far it and its peers are.
    Inspect,
    /// Its members alone.
    Members,
    /// The image that it kept last.
    Image,
    /// Where a name leads.
    Where(Name),
}

/// What a line asks of the node of this name: none where it has no form.
///
/// # Errors
///
/// Refused only for memory.
pub fn read_asked(alloc: Global, name: &NodeName, line: &[u8]) -> Result<Option<Asked>, AllocError>
    ensures { IfOk result (λ asked. asked ≡ asked_of name.now line.now) }
{
    let Some(text) = plain_text(line) else {
        return Ok(None);
    };
    match value_after(text, "deliver ") {
        Some(message) => {
            let bytes = message.as_bytes().to_vec(alloc)?;
            let event = Event::Deliver(MessageText::new(bytes));
            Ok(Some(Asked::Does(event, 0)))
        }
        None => read_words(alloc, name, text),
    }
}

fn read_words(alloc: Global, name: &NodeName, text: &str) -> Result<Option<Asked>, AllocError>
    ensures { IfOk result (λ asked. asked ≡ asked_in name.now None text.now) }
{
    if text == "members" {
        return Ok(Some(Asked::Members));
    }
    let full = name_in(alloc, name, text)?;
    match read_line(alloc, full.as_bytes()) {
        Ok(line) => Ok(asked_by(line)),
        Err(LineFault::Bad) => Ok(None),
        Err(LineFault::OutOfMemory) => Err(AllocError),
    }
}

// The script's line: the node's name stands behind the first word.
fn name_in(alloc: Global, name: &NodeName, text: &str) -> Result<String, AllocError>
    ensures { IfOk result (λ full. string_bytes full ≡ named name.now text.now) }
{
    let name = name.as_str();
    match text.split_once(' ') {
        Some((verb, rest)) => format!(in alloc; "{verb} {name} {rest}"),
        None => format!(in alloc; "{text} {name}"),
    }
}

fn asked_by(line: Line) -> Option<Asked>
    ensures { result ≡ asked_by line }
{
    match line {
        Line::Step(step) => asked_by_step(step),
        Line::Show(_) => Some(Asked::Show),
        Line::Inspect(_) => Some(Asked::Inspect),
        Line::Image(_) => Some(Asked::Image),
        Line::Where { node: _, name } => Some(Asked::Where(name)),
        Line::Settle | Line::Message { .. } => None,
    }
}

fn asked_by_step(step: Step) -> Option<Asked>
    ensures { result ≡ asked_by_step step }
{
    match step {
        Step::Node {
            at: _,
            act,
            now,
            saves,
        } => asked_by_act(act, now, saves),
        Step::Raw { .. } | Step::Deliver { .. } => None,
    }
}

// An event, if no save is told to fail.
fn asked_by_act(act: Act, now: u64, saves: bool) -> Option<Asked>
    ensures { result ≡ asked_by_act now saves act }
{
    if !saves {
        return None;
    }
    match act {
        Act::Event(event) => Some(Asked::Does(event, now)),
        Act::Stop | Act::Restart => None,
    }
}
