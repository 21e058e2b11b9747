//! The tests of names, ids, texts and specifications, and of placement, through their public calls. A crate with tests
//! is proved twice, once without and once with them: here there is nothing to prove without them.
#![tactic(auto)]

#[cfg(test)]
mod assignment;
#[cfg(test)]
mod given;
#[cfg(test)]
mod placement;
#[cfg(test)]
mod specs;
