//! The tests of maps with an index and of joins in place, through their public calls. A crate with tests is proved
//! twice, once without and once with them: here there is nothing to prove without them.
#![tactic(auto)]

#[cfg(test)]
mod few;
#[cfg(test)]
mod given;
#[cfg(test)]
mod joins;
#[cfg(test)]
mod plans;
