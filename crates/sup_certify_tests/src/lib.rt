//! The tests of certification: histories that gates made on one thread, and histories that were changed.
#![tactic(auto)]

#[cfg(test)]
mod changed;
#[cfg(test)]
mod given;
#[cfg(test)]
mod histories;
#[cfg(test)]
mod judged;
#[cfg(test)]
mod refused;
#[cfg(test)]
mod told;
