//! The tests of the local supervisor, through its public calls. A crate with tests is proved twice, once without and once
//! with them: here there is nothing to prove without them.
#![tactic(auto)]

#[cfg(test)]
mod changes;
#[cfg(test)]
mod changing;
#[cfg(test)]
mod exits;
#[cfg(test)]
mod given;
#[cfg(test)]
mod refused;
#[cfg(test)]
mod refused_changes;
#[cfg(test)]
mod restarts;
#[cfg(test)]
mod seen;
#[cfg(test)]
mod stage;
#[cfg(test)]
mod wanting;
