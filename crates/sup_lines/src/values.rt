//! The values that words are.

ghost use Rattle.std.specs.Prelude.{◌≡◌, ◌<◌, ◌≤◌, ◌^◌, IfOk, IfErr};
ghost use Rattle.std.specs.List.{list_all};
ghost use Rattle.std.specs.Char.{is_ascii_digit};
ghost use Rattle.sup_specs.specs.Texts.{text_fault};
ghost use Rattle.sup_specs.specs.Reasons.{reason_of};
ghost use Rattle.sup_lines.specs.Words.{Reads};
ghost use Rattle.sup_lines.specs.Values.{child_id_of, incarnation_of, is_numeral, kind_of, node_name_of, number_of, registered_name_of, restart_of, shutdown_of, text_of, unless_faulty};

use crate::fault::LineFault;
use std::alloc::Global;
use sup_local_sup::Incarnation;
use sup_specs::texts::{Alphabet, fault_in};
use sup_specs::{
    ChildId, ExitReason, Kind, MAX, Name, NodeName, ReasonFault, Restart, Shutdown, Text,
};

/// The greatest number of milliseconds.
const MOST_MILLIS: u64 = 4_294_967_295;

/// The name of a node that a word is.
#[tactic(auto, unfolding(crate::specs::Values::node_name_of))]
pub fn read_node_name(word: &str) -> Result<NodeName, LineFault>
    ensures name { Reads (λ name. name) result (node_name_of word.now) }
    ensures bad { IfErr result (λ e. e ≡ LineFault.Bad) }
{
    Ok(NodeName::parse(word)?)
}

/// The id of a child that a word is.
///
/// # Errors
///
/// - `LineFault::Bad` exactly where it is none.
/// - `LineFault::OutOfMemory` where it is one, and memory for it was refused.
#[tactic(auto, unfolding(crate::specs::Values::child_id_of))]
pub fn read_child_id(alloc: Global, word: &str) -> Result<ChildId, LineFault>
    ensures { Reads (λ id. id) result (child_id_of word.now) }
{
    Ok(ChildId::parse(alloc, word)?)
}

/// Whether a word is the id of a child, which takes no memory to tell.
#[tactic(auto, unfolding(crate::specs::Values::child_id_of))]
pub fn check_child_id(word: &str) -> Result<(), LineFault>
    ensures id { Reads (λ _. word.now) result (child_id_of word.now) }
    ensures bad { IfErr result (λ e. e ≡ LineFault.Bad) }
{
    check_visible(word, 1, 128)
}

/// The name for a child that a word is.
#[tactic(auto, unfolding(crate::specs::Values::registered_name_of))]
pub fn read_registered_name(alloc: Global, word: &str) -> Result<Name, LineFault>
    ensures { Reads (λ name. name) result (registered_name_of word.now) }
{
    Ok(Name::parse(alloc, word)?)
}

/// Whether a word is a name for a child, which takes no memory to tell.
#[tactic(auto, unfolding(crate::specs::Values::registered_name_of))]
pub fn check_registered_name(word: &str) -> Result<(), LineFault>
    ensures name { Reads (λ _. word.now) result (registered_name_of word.now) }
    ensures bad { IfErr result (λ e. e ≡ LineFault.Bad) }
{
    check_visible(word, 1, 128)
}

/// The kind of a child that a word is.
#[tactic(auto, unfolding(crate::specs::Values::kind_of))]
pub fn read_kind(alloc: Global, word: &str) -> Result<Kind, LineFault>
    ensures { Reads (λ kind. kind) result (kind_of word.now) }
{
    Ok(Kind::parse(alloc, word)?)
}

/// The text that a word is.
#[tactic(auto, unfolding(crate::specs::Values::text_of))]
pub fn read_text(alloc: Global, word: &str) -> Result<Text, LineFault>
    ensures { Reads (λ text. text) result (text_of word.now) }
{
    Ok(Text::parse(alloc, word)?)
}

/// Whether a word is a text, which takes no memory to tell.
#[tactic(auto, unfolding(crate::specs::Values::text_of))]
pub fn check_text(word: &str) -> Result<(), LineFault>
    ensures text { Reads (λ _. word.now) result (text_of word.now) }
    ensures bad { IfErr result (λ e. e ≡ LineFault.Bad) }
{
    check_visible(word, 0, 1024)
}

fn check_visible(word: &str, least: usize, most: usize) -> Result<(), LineFault>
    ensures text { Reads (λ _. word.now) result
        (unless_faulty (text_fault Alphabet.Visible least most word.now) word.now) }
    ensures bad { IfErr result (λ e. e ≡ LineFault.Bad) }
{
    match fault_in(word, Alphabet::Visible, least, most) {
        Some(_) => Err(LineFault::Bad),
        None => Ok(()),
    }
}

/// The number that a word is: decimal digits without needless zeros.
#[tactic(auto, unfolding(crate::specs::Values::number_of))]
pub fn read_number(word: &str, greatest: u64) -> Result<u64, LineFault>
    ensures value { Reads (λ number. number) result (number_of greatest word.now) }
    ensures bound { IfOk result (λ number. number ≤ greatest) }
    ensures bad { IfErr result (λ e. e ≡ LineFault.Bad) }
{
    if !is_numeral(word.as_bytes()) {
        return Err(LineFault::Bad);
    }
    match word.parse::<u64>() {
        Ok(number) if number <= greatest => Ok(number),
        _ => Err(LineFault::Bad),
    }
}

fn is_numeral(bytes: &[u8]) -> bool
    ensures { result ≡ is_numeral bytes.now }
{
    !bytes.is_empty() && (bytes.len() <= 1 || bytes[0] != b'0') && are_digits(bytes)
}

fn are_digits(bytes: &[u8]) -> bool
    ensures { result ≡ list_all is_ascii_digit bytes.now }
{
    bytes.iter().all(|byte| byte.is_ascii_digit())
}

/// The restart type that a word is.
#[tactic(auto, unfolding(crate::specs::Values::restart_of))]
pub fn read_restart(word: &str) -> Result<Restart, LineFault>
    ensures restart { Reads (λ restart. restart) result (restart_of word.now) }
    ensures bad { IfErr result (λ e. e ≡ LineFault.Bad) }
{
    match word {
        "permanent" => Ok(Restart::Permanent),
        "transient" => Ok(Restart::Transient),
        "temporary" => Ok(Restart::Temporary),
        _ => Err(LineFault::Bad),
    }
}

/// The shutdown that a word is.
#[tactic(auto, unfolding(crate::specs::Values::shutdown_of))]
pub fn read_shutdown(word: &str) -> Result<Shutdown, LineFault>
    ensures shutdown { Reads (λ shutdown. shutdown) result (shutdown_of word.now) }
    ensures bad { IfErr result (λ e. e ≡ LineFault.Bad) }
{
    match word {
        "brutal_kill" => Ok(Shutdown::Brutal),
        "infinity" => Ok(Shutdown::Infinity),
        _ => {
            let millis = read_number(word, MOST_MILLIS)?;
            Ok(Shutdown::Millis(millis as u32))
        }
    }
}

/// The reason that a word is.
pub fn read_reason(alloc: Global, word: &str) -> Result<ExitReason, LineFault>
    ensures { Reads (λ reason. reason) result (reason_of word.now) }
{
    match ExitReason::parse(alloc, word) {
        Ok(reason) => Ok(reason),
        Err(ReasonFault::NotAReason) => Err(LineFault::Bad),
        Err(ReasonFault::OutOfMemory) => Err(LineFault::OutOfMemory),
    }
}

/// The run of a child that a word is.
#[tactic(auto, unfolding(crate::specs::Values::incarnation_of))]
pub fn read_incarnation(word: &str) -> Result<Incarnation, LineFault>
    ensures inc { Reads (λ inc. inc) result (incarnation_of word.now) }
    ensures bad { IfErr result (λ e. e ≡ LineFault.Bad) }
{
    let Some((boot, k)) = word.split_once('.') else {
        return Err(LineFault::Bad);
    };
    let boot = read_number(boot, MAX)?;
    let k = read_number(k, MAX)?;
    Ok(Incarnation { boot, k })
}
