//! What becomes of a message at its own put.
ghost use Rattle.std.specs.Prelude.{◌≡◌, ◌++◌, ◌∷◌, [], IfOk, OnErr};
ghost use Rattle.sup_links.specs.Image.{copies};
ghost use Rattle.sup_links.specs.Waiting.{waiting, held_back};
ghost use Rattle.sup_links.specs.Going.{going};

use crate::held::Held;
use crate::script::Verdict;
use std::alloc::{AllocError, Global};

/// What leaves at once.
#[derive(Drop)]
pub enum Copies {
    Nothing,
    One(Vec<u8>),
    Two(Vec<u8>, Vec<u8>),
}

// What of this message leaves at once. A held one joins those that wait.
#[tactic(auto, using(crate::proofs::TextLaws::waiting_more))]
pub fn make_copies(
    alloc: Global,
    held: &mut Vec<Held>,
    verdict: Verdict,
    text: Vec<u8>,
) -> Result<Copies, AllocError>
    ensures go { IfOk result (λ now. going now ≡ copies verdict (text.items ∷ [])) }
    ensures waits { IfOk result (λ _. waiting held.new.items ≡ waiting held.old.items ++ held_back verdict text.items) }
    ensures refused { OnErr result (held.new.items ≡ held.old.items) }
{
    match verdict {
        Verdict::Pass => Ok(Copies::One(text)),
        Verdict::Lose => Ok(Copies::Nothing),
        Verdict::Twice => {
            let copy = text.to_vec(alloc)?;
            Ok(Copies::Two(copy, text))
        }
        Verdict::Hold(behind) => {
            let left = behind as u32 + 1;
            held.push(Held { left, text })?;
            Ok(Copies::Nothing)
        }
    }
}
