//! The letters of what a history lists.
ghost use Rattle.std.specs.Prelude.{◌≡◌, ◌++◌, drop, IfOk, OnOk};
ghost use Rattle.sup_node_gate.specs.Histories.{letter_in, letters_of};

use crate::entry::Entry;
use std::alloc::{AllocError, Global};
use sup_replica::{Done, Letter, Refusal};

/// Letters of a history, and how many entries that has.
#[derive(Drop)]
pub struct Outgoing {
    pub letters: Vec<Letter>,
    pub entries: u64,
}

// A copy of an answer's letter, if it has one, behind the others.
fn copy_letter(
    alloc: Global,
    letters: &mut Vec<Letter>,
    answer: &Result<Done, Refusal>,
) -> Result<(), AllocError>
    ensures { OnOk result (letters.new.items ≡ letters.old.items ++ letter_in answer.now) }
{
    let Ok(done) = answer else {
        return Ok(());
    };
    if let Some(letter) = &done.out {
        letters.push(letter.try_clone(alloc)?)?;
    }
    Ok(())
}

// Copies of the letters of the answers from a place on, in their order.
pub(crate) fn copy_letters(
    alloc: Global,
    entries: &[Entry],
    from: usize,
) -> Result<Vec<Letter>, AllocError>
    ensures { IfOk result (λ letters. letters.items ≡ letters_of (drop from entries.now)) }
{
    let mut letters = Vec::new(alloc);
    for place in from..entries.len() {
        copy_letter(alloc, &mut letters, &entries[place].answer)?;
    }
    Ok(letters)
}
