//! What a link lets through, of the whole list that was sent.

ghost use Rattle.std.specs.Prelude.{◌≡◌, ℕ, ◌+◌, ◌++◌, ◌∷◌, [], List, IfOk, OnOk};
ghost use Rattle.sup_links.specs.Image.{verdict, copies, brought_out, image as image_of};
ghost use Rattle.sup_links.specs.Texts.{Bytes, texts};
ghost use Rattle.sup_links.specs.Waiting.{waiting, held_back, counted_with, leaving, due, kept};
ghost use Rattle.sup_links.specs.declared.script.Verdict.{Verdict};

use crate::held::{Held, count_down, keep_waiting};
use crate::script::{LinkScript, Verdict};
use std::alloc::{AllocError, Global};
use std::mem::replace;

// The verdict of the message at this place, from 0.
pub(crate) fn verdict_at(script: &LinkScript, place: usize) -> Verdict
    ensures { result ≡ verdict script.now.0.items (place + 1) }
{
    match script.0.get(place) {
        Some(verdict) => *verdict,
        None => Verdict::Pass,
    }
}

#[tactic(auto, using(crate::proofs::TextLaws::texts_more))]
fn push_copy(alloc: Global, out: &mut Vec<Vec<u8>>, text: &[u8]) -> Result<(), AllocError>
    ensures { OnOk result (texts out.new.items ≡ texts out.old.items ++ text.now ∷ []) }
{
    let copy = text.to_vec(alloc)?;
    out.push(copy)?;
    Ok(())
}

// The copies of a message that leave at once.
#[tactic(auto, using(crate::proofs::TextLaws::texts_more))]
fn push_copies(
    alloc: Global,
    out: &mut Vec<Vec<u8>>,
    verdict: Verdict,
    text: &[u8],
) -> Result<(), AllocError>
    ensures { OnOk result (texts out.new.items ≡ texts out.old.items ++ copies verdict (text.now ∷ [])) }
{
    match verdict {
        Verdict::Pass => push_copy(alloc, out, text),
        Verdict::Lose => Ok(()),
        Verdict::Twice => {
            push_copy(alloc, out, text)?;
            push_copy(alloc, out, text)
        }
        Verdict::Hold(_) => Ok(()),
    }
}

// A message that is held joins those that wait.
#[tactic(auto, using(crate::proofs::TextLaws::waiting_more))]
fn hold_back(
    alloc: Global,
    held: &mut Vec<Held>,
    verdict: Verdict,
    text: &[u8],
) -> Result<(), AllocError>
    ensures { OnOk result (waiting held.new.items ≡ waiting held.old.items ++ held_back verdict text.now) }
{
    match verdict {
        Verdict::Hold(behind) => {
            let left = behind as u32 + 1;
            let text = text.to_vec(alloc)?;
            held.push(Held { left, text })?;
            Ok(())
        }
        Verdict::Pass => Ok(()),
        Verdict::Lose => Ok(()),
        Verdict::Twice => Ok(()),
    }
}

// Each message that waits no more, in the order in which they were put. It leaves its place empty.
fn push_due(alloc: Global, out: &mut Vec<Vec<u8>>, held: &mut Vec<Held>) -> Result<(), AllocError>
    ensures out { OnOk result (texts out.new.items ≡ texts out.old.items ++ due (waiting held.old.items)) }
    ensures others { OnOk result (kept (waiting held.new.items) ≡ kept (waiting held.old.items)) }
{
    for message in held.iter_mut() {
        if message.left == 0 {
            out.push(replace(&mut message.text, Vec::new(alloc)))?;
        }
    }
    Ok(())
}

// What one message brings out: its copies, and then each message whose hold ends here.
fn push_message(
    alloc: Global,
    out: &mut Vec<Vec<u8>>,
    held: &mut Vec<Held>,
    verdict: Verdict,
    text: &[u8],
) -> Result<(), AllocError>
    ensures out { OnOk result (texts out.new.items ≡ texts out.old.items ++ leaving held.old.items verdict text.now) }
    ensures held { OnOk result (waiting held.new.items ≡ kept (counted_with held.old.items verdict text.now)) }
{
    push_copies(alloc, out, verdict, text)?;
    hold_back(alloc, held, verdict, text)?;
    count_down(held);
    push_due(alloc, out, held)?;
    keep_waiting(held);
    Ok(())
}

/// What a link with this script lets through where these messages are put: for each message its copies, then each message whose hold ends
/// there. What is never released is lost. It is played message by message, as the link plays it.
///
/// # Errors
///
/// Where there is no memory.
pub fn image(
    alloc: Global,
    script: &LinkScript,
    sent: &[Vec<u8>],
) -> Result<Vec<Vec<u8>>, AllocError>
    ensures { IfOk result (λ out. texts out.items ≡ image_of script.now.0.items (texts sent.now)) }
{
    let mut out = Vec::new(alloc);
    let mut held = Vec::new(alloc);
    for place in 0..sent.len() {
        push_message(
            alloc,
            &mut out,
            &mut held,
            verdict_at(script, place),
            &sent[place],
        )?;
    }
    Ok(out)
}

// Messages 1 to 5 under the script lose, twice, hold 1.
pub(crate) fn image_row()
    ensures { image_of {X = ℕ} (Verdict.Lose ∷ Verdict.Twice ∷ Verdict.Hold 1 ∷ []) (1 ∷ 2 ∷ 3 ∷ 4 ∷ 5 ∷ []) ≡ 2 ∷ 2 ∷ 4 ∷ 3 ∷ 5 ∷ [] }
{}

// What one message more brings out: its own copies, and then what is released behind it.
pub(crate) fn image_grows()
    ensures { (script : List Verdict) (l : List Bytes) (m : Bytes) → image_of script (l ++ m ∷ []) ≡ image_of script l ++ brought_out script l m }
{}
