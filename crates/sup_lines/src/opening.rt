//! The first line of a script: its nodes.

ghost use Rattle.std.specs.Prelude.{◌≡◌, ◌≢◌, IfErr, None};
ghost use Rattle.sup_lines.specs.Words.{Reads, texts};
ghost use Rattle.sup_lines.specs.Opening.{are_distinct, distinct_names_of, names_of, nodes_within};
ghost use Rattle.sup_lines.specs.Script.{ReadsLine, opening_of, opening_within};

use crate::fault::LineFault;
use crate::values::read_node_name;
use crate::words::{plain_text, words_of};
use std::alloc::Global;
use sup_specs::NodeName;

/// A world has at least this many nodes.
const LEAST_NODES: usize = 1;

/// A world has at most this many nodes.
pub const MOST_NODES: usize = 16;

/// The nodes of a script, 1 to 16 distinct ones.
pub fn read_opening(alloc: Global, line: &[u8]) -> Result<Vec<NodeName>, LineFault>
    ensures { ReadsLine (λ v. v.items) line.now result (opening_of line.now) }
{
    read_nodes_within(alloc, line, LEAST_NODES, MOST_NODES)
}

/// The nodes that a first line names, at least and at most so many distinct ones.
///
/// # Errors
///
/// - `LineFault::Bad` where the line names no such nodes: always where it isn't plain.
/// - `LineFault::OutOfMemory` where memory was refused.
#[tactic(auto, unfolding(crate::specs::Script::opening_within))]
pub fn read_nodes_within(
    alloc: Global,
    line: &[u8],
    least: usize,
    most: usize,
) -> Result<Vec<NodeName>, LineFault>
    ensures { ReadsLine (λ v. v.items) line.now result (opening_within least most line.now) }
{
    match plain_text(line) {
        Some(text) => {
            let words = words_of(alloc, text)?;
            read_nodes(alloc, words.as_slice(), least, most)
        }
        None => Err(LineFault::Bad),
    }
}

fn read_nodes(
    alloc: Global,
    words: &[&str],
    least: usize,
    most: usize,
) -> Result<Vec<NodeName>, LineFault>
    ensures { Reads (λ v. v.items) result (nodes_within least most (texts words.now)) }
{
    let Some((verb, words)) = words.split_first() else {
        return Err(LineFault::Bad);
    };
    if *verb != "nodes" || words.len() < least || words.len() > most {
        return Err(LineFault::Bad);
    }
    read_distinct(alloc, words)
}

/// The names that the words are, no two of them equal.
///
/// # Errors
///
/// - `LineFault::Bad` exactly where a word is no name of a node, or two are equal.
/// - `LineFault::OutOfMemory` where they are distinct names, and memory for them was refused.
pub fn read_distinct(alloc: Global, words: &[&str]) -> Result<Vec<NodeName>, LineFault>
    ensures { Reads (λ v. v.items) result (distinct_names_of (texts words.now)) }
{
    check_names(words)?;
    if !are_distinct(words) {
        return Err(LineFault::Bad);
    }
    read_names(alloc, words)
}

// Callers give sixteen words at most, here and below.
#[tactic(auto, using(crate::proofs::WordValues::named))]
fn check_names(words: &[&str]) -> Result<(), LineFault>
    ensures names { Reads (λ _. texts words.now) result (names_of (texts words.now)) }
    ensures bad { IfErr result (λ e. e ≡ LineFault.Bad) }
{
    let Some((word, others)) = words.split_first() else {
        return Ok(());
    };
    read_node_name(word)?;
    check_names(others)?;
    Ok(())
}

fn read_names(alloc: Global, words: &[&str]) -> Result<Vec<NodeName>, LineFault>
    requires { names_of (texts words.now) ≢ None }
    ensures { Reads (λ v. v.items) result (names_of (texts words.now)) }
{
    let mut names = Vec::new(alloc);
    for word in words {
        names.push(read_node_name(word)?)?;
    }
    Ok(names)
}

// Each is looked for among the later ones, since there are few.
fn are_distinct(words: &[&str]) -> bool
    ensures { result ≡ are_distinct (texts words.now) }
{
    let Some((word, others)) = words.split_first() else {
        return true;
    };
    !others.contains(word) && are_distinct(others)
}
