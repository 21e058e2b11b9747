//! What a node tells its host.

ghost use Rattle.std.specs.Prelude.{◌≡◌, ◌++◌, IfOk, OnOk, Some, string_bytes};
ghost use Rattle.std.specs.List.{flat_map};
ghost use Rattle.sup_text.specs.Answers.{reply_text};
ghost use Rattle.sup_told.specs.Told.{bad_text, done_text, ended_text, order_text, parcel_text, told_text};

use std::alloc::{AllocError, Global};
use std::fmt;
use sup_local_sup::{Effect, Effects};
use sup_replica::{Done, Letter, Refusal, Reply};
use sup_specs::NodeName;
use sup_text::{IncarnationText, SpecText, answer_text, refusal_text};

/// What is told of an act's end: its reply or its refusal; what the host has to do, in its order; the letter that leaves; and an empty
/// line.
///
/// # Errors
///
/// Refused only for memory.
pub fn told_text(alloc: Global, end: Result<Done, Refusal>) -> Result<Vec<u8>, AllocError>
    ensures { IfOk result (λ text. text.items ≡ told_text end) }
{
    match end {
        Ok(done) => done_bytes(alloc, done),
        Err(refusal) => {
            let text = refusal_text(alloc, refusal)?;
            ended_text(text)
        }
    }
}

/// An answer of these lines, and the empty line that ends it.
///
/// # Errors
///
/// Refused only for memory.
pub fn ended_text(lines: String) -> Result<Vec<u8>, AllocError>
    ensures { IfOk result (λ text. text.items ≡ ended_text (string_bytes lines)) }
{
    let mut bytes = lines.into_bytes();
    bytes.push(b'\n')?;
    Ok(bytes)
}

/// What is told of a line that has no form, or is too long.
///
/// # Errors
///
/// Refused only for memory.
pub fn bad_text(alloc: Global) -> Result<Vec<u8>, AllocError>
    ensures { IfOk result (λ text. text.items ≡ bad_text) }
{
    b"bad line\n\n".to_vec(alloc)
}

fn done_bytes(alloc: Global, done: Done) -> Result<Vec<u8>, AllocError>
    ensures { IfOk result (λ text. text.items ≡ done_text done) }
{
    let Done {
        reply,
        effects,
        out,
    } = done;
    let mut text = reply_bytes(alloc, reply)?;
    let orders = orders_text(alloc, effects.as_slice())?;
    text.extend_from_slice(orders.as_bytes())?;
    put_parcel(&mut text, &out)?;
    text.push(b'\n')?;
    Ok(text)
}

// The line of a reply.
fn reply_bytes(alloc: Global, reply: Reply) -> Result<Vec<u8>, AllocError>
    ensures { IfOk result (λ text. text.items ≡ reply_text reply) }
{
    let bare = Done {
        reply,
        effects: Effects::new(Vec::new(alloc)),
        out: None,
    };
    let Ok(nobody) = NodeName::parse("a") else {
        unreachable!()
    };
    // Without effects and a letter an answer is its reply alone.
    let text = answer_text(alloc, &nobody, &bare, None)?;
    Ok(text.into_bytes())
}

// The lines of effects, in their order.
fn orders_text(alloc: Global, effects: &[Effect]) -> Result<String, AllocError>
    ensures { IfOk result (λ s. string_bytes s ≡ flat_map order_text effects.now) }
{
    let mut text = String::new(alloc);
    for effect in effects {
        let order = OrderText(effect);
        let line = format!(in alloc; "{order}")?;
        text.push_str(line.as_str())?;
    }
    Ok(text)
}

// The line of what is to be done, of a start with its specification.
#[derive(Clone, Copy)]
struct OrderText<'a>(&'a Effect);

impl fmt::Display for OrderText<'_> {
    ghost output = { λ e. Some (order_text e.0.now) };

    fn fmt<W: fmt::Write>(&self, f: &mut fmt::Formatter<W>) -> fmt::Result {
        match self.0 {
            Effect::Stop { id, inc } => {
                let id = id.as_str();
                let inc = IncarnationText(*inc);
                write!(f, "  stop {id} {inc}\n")
            }
            Effect::Start { id, inc, spec } => {
                let id = id.as_str();
                let inc = IncarnationText(*inc);
                let spec = SpecText(spec);
                write!(f, "  start {id} {inc} {spec}\n")
            }
        }
    }
}

// Puts the line of a letter behind a text.
fn put_parcel(text: &mut Vec<u8>, letter: &Option<Letter>) -> Result<(), AllocError>
    ensures { OnOk result (text.new.items ≡ text.old.items ++ parcel_text letter.now) }
{
    let Some(letter) = letter else {
        return Ok(());
    };
    text.extend_from_slice(b"  send ")?;
    text.extend_from_slice(letter.to.as_str().as_bytes())?;
    text.extend_from_slice(b" ")?;
    text.extend_from_slice(letter.bytes.as_slice())?;
    text.extend_from_slice(b"\n")?;
    Ok(())
}
