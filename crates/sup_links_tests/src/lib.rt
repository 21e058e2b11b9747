//! The tests of links, through their public calls. A crate with tests is proved twice, once without and once with
//! them: here there is nothing to prove without them.
#![tactic(auto)]

#[cfg(test)]
mod given;
#[cfg(test)]
mod scripts;
#[cfg(test)]
mod threads;
