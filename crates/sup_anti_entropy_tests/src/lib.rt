//! The tests of what a node keeps for its peers, through its public calls. A crate with tests is proved twice, once
//! without and once with them: here there is nothing to prove without them.
#![tactic(auto)]

#[cfg(test)]
mod peers;
#[cfg(test)]
mod stories;
