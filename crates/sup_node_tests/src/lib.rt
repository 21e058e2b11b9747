//! The tests of `sup_node`, through its public calls. A crate with tests is proved twice, once without
//! and once with them: here there is nothing to prove without them.
#![tactic(auto)]

#[cfg(test)]
mod given;
#[cfg(test)]
mod images;
#[cfg(test)]
mod names;
#[cfg(test)]
mod ships;
