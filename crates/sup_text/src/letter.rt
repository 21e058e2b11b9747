//! Letters as texts.

ghost use Rattle.std.specs.Prelude.{◌≡◌, IfOk, Some, string_bytes};
ghost use Rattle.sup_text.specs.Answers.{letter_kind_text, letter_text, sent_text};

use std::alloc::{AllocError, Global};
use std::fmt;
use sup_replica::{Letter, LetterKind};
use sup_specs::NodeName;

// What a letter brings, as `delta 3 whole`.
#[derive(Clone, Copy)]
struct LetterKindText(LetterKind);

impl fmt::Display for LetterKindText {
    ghost output = { λ k. Some (letter_kind_text k.0) };

    fn fmt<W: fmt::Write>(&self, f: &mut fmt::Formatter<W>) -> fmt::Result {
        match self.0 {
            LetterKind::Part(n) => write!(f, "delta {n} part"),
            LetterKind::Whole(n) => write!(f, "delta {n} whole"),
            LetterKind::Push => write!(f, "push"),
            LetterKind::Ack(n) => write!(f, "ack {n}"),
        }
    }
}

// The line of a letter, the sender's k-th.
fn letter_text(
    alloc: Global,
    from: &NodeName,
    k: u64,
    letter: &Letter,
) -> Result<String, AllocError>
    ensures { IfOk result (λ s. string_bytes s ≡ letter_text from.now k letter.now) }
{
    let from = from.as_str();
    let to = letter.to.as_str();
    let kind = LetterKindText(letter.kind);
    format!(in alloc; "  sent {from} {k} to {to} {kind}\n")
}

// The line of a letter that left, which has a number then.
pub(crate) fn sent_text(
    alloc: Global,
    from: &NodeName,
    letter: &Option<Letter>,
    number: Option<u64>,
) -> Result<String, AllocError>
    ensures { IfOk result (λ s. string_bytes s ≡ sent_text from.now letter.now number) }
{
    match (letter, number) {
        (Some(letter), Some(k)) => letter_text(alloc, from, k, letter),
        _ => Ok(String::new(alloc)),
    }
}
