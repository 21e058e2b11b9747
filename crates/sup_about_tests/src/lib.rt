//! The tests of what the programs answer about themselves, with lines beside them that are theirs or not, and writers of little room.
#![tactic(auto)]

#[cfg(test)]
mod answers;
pub mod fakes;
#[cfg(test)]
mod words;
