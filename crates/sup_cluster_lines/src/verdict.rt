//! What becomes of messages, as words say it.

ghost use Rattle.std.specs.Prelude.{◌≡◌, ◌≢◌, IfErr, None, is_ok, is_some};
ghost use Rattle.sup_lines.specs.Words.{Reads, texts};
ghost use Rattle.sup_cluster_lines.specs.Verdicts.{hold_of, verdict_of, verdicts_of};

use std::alloc::Global;
use sup_lines::{LineFault, read_number, value_after};
use sup_links::Verdict;

// The most messages that one is held for.
const MOST_HELD: u64 = 1000;

/// What the words say of messages, one after another.
///
/// # Errors
///
/// - `LineFault::Bad` exactly where one of them says nothing of a message.
/// - `LineFault::OutOfMemory` where each does, and memory for them was refused.
pub fn read_verdicts(alloc: Global, words: &[&str]) -> Result<Vec<Verdict>, LineFault>
    ensures { Reads (λ v. v.items) result (verdicts_of (texts words.now)) }
{
    check_verdicts(words)?;
    collect_verdicts(alloc, words)
}

// Whether each word says something of a message, which takes no memory to tell.
fn check_verdicts(words: &[&str]) -> Result<(), LineFault>
    ensures verdicts { is_ok result ≡ is_some (verdicts_of (texts words.now)) }
    ensures bad { IfErr result (λ e. e ≡ LineFault.Bad) }
{
    for word in words {
        read_verdict(word)?;
    }
    Ok(())
}

fn collect_verdicts(alloc: Global, words: &[&str]) -> Result<Vec<Verdict>, LineFault>
    requires { verdicts_of (texts words.now) ≢ None }
    ensures { Reads (λ v. v.items) result (verdicts_of (texts words.now)) }
{
    let mut verdicts = Vec::new(alloc);
    for word in words {
        verdicts.push(read_verdict(word)?)?;
    }
    Ok(verdicts)
}

#[tactic(auto, unfolding(crate::specs::Verdicts::verdict_of))]
fn read_verdict(word: &str) -> Result<Verdict, LineFault>
    ensures verdict { Reads (λ v. v) result (verdict_of word.now) }
    ensures bad { IfErr result (λ e. e ≡ LineFault.Bad) }
{
    match word {
        "pass" => Ok(Verdict::Pass),
        "lose" => Ok(Verdict::Lose),
        "twice" => Ok(Verdict::Twice),
        _ => read_hold(word),
    }
}

#[tactic(auto, unfolding(crate::specs::Verdicts::hold_of))]
fn read_hold(word: &str) -> Result<Verdict, LineFault>
    ensures verdict { Reads (λ v. v) result (hold_of word.now) }
    ensures bad { IfErr result (λ e. e ≡ LineFault.Bad) }
{
    let Some(number) = value_after(word, "hold:") else {
        return Err(LineFault::Bad);
    };
    let held = read_number(number, MOST_HELD)?;
    if held == 0 {
        return Err(LineFault::Bad);
    }
    Ok(Verdict::Hold(held as u16))
}
