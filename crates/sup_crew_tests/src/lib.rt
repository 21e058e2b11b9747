//! The tests of jobs that run at once, through their public calls. A crate with tests is proved twice, once without and once with
//! them: here there is nothing to prove without them.
#![tactic(auto)]

#[cfg(test)]
mod nested;
#[cfg(test)]
mod orders;
#[cfg(test)]
mod talks;
#[cfg(test)]
mod teams;
