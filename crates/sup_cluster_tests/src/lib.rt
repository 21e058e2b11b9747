//! The tests of running clusters, through their public calls. A crate with tests is proved twice, once without and once with them: here
//! there is nothing to prove without them.
#![tactic(auto)]

#[cfg(test)]
mod bad_plans;
#[cfg(test)]
mod bounded;
#[cfg(test)]
mod checkpoints;
#[cfg(test)]
mod failing;
#[cfg(test)]
mod five;
#[cfg(test)]
mod given;
#[cfg(test)]
mod lossy;
#[cfg(test)]
mod stopped;
#[cfg(test)]
mod together;
