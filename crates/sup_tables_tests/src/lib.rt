//! The tests of the replicated tables, through their public calls. A crate with tests is proved twice, once without and
//! once with them: here there is nothing to prove without them.
#![tactic(auto)]

#[cfg(test)]
mod acts;
#[cfg(test)]
mod draining;
#[cfg(test)]
mod few;
#[cfg(test)]
mod given;
#[cfg(test)]
mod in_place;
#[cfg(test)]
mod reading;
#[cfg(test)]
mod seen;
#[cfg(test)]
mod stories;
#[cfg(test)]
mod touching;
