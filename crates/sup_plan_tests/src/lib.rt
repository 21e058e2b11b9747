//! The tests of plans, through their public calls. A crate with tests is proved twice, once without and once with them: here there is
//! nothing to prove without them.
#![tactic(auto)]

#[cfg(test)]
mod given;
#[cfg(test)]
mod parts;
#[cfg(test)]
mod plans;
