//! The tests of gates, through their public calls. A crate with tests is proved twice, once without and once with them: here
//! there is nothing to prove without them.
#![tactic(auto)]

#[cfg(test)]
mod bound;
#[cfg(test)]
mod busy;
#[cfg(test)]
mod given;
#[cfg(test)]
mod letters;
#[cfg(test)]
mod refused;
#[cfg(test)]
mod restarts;
#[cfg(test)]
mod scarcity;
#[cfg(test)]
mod shared;
#[cfg(test)]
mod told;
#[cfg(test)]
mod waiting;
