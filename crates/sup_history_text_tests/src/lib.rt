//! The tests of the text of a history, through its public calls. A crate with tests is proved twice, once without and
//! once with them: here there is nothing to prove without them.
#![tactic(auto)]

#[cfg(test)]
mod faults;
#[cfg(test)]
mod histories;
#[cfg(test)]
mod lines;
#[cfg(test)]
mod recorded;
#[cfg(test)]
mod shapes;
