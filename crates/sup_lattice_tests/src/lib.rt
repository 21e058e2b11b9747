//! The tests of contexts, lattices and dot stores, through their public calls. A crate with tests is proved twice, once
//! without and once with them: here there is nothing to prove without them.
#![tactic(auto)]

#[cfg(test)]
mod contexts;
#[cfg(test)]
mod cuts;
#[cfg(test)]
mod given;
#[cfg(test)]
mod lattices;
#[cfg(test)]
mod states;
#[cfg(test)]
mod stores;
