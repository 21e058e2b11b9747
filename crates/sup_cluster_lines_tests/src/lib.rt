//! The tests of reading scripts of runs of threads, through their public call. A crate with tests is proved twice, once without and
//! once with them: here there is nothing to prove without them.
#![tactic(auto)]

#[cfg(test)]
mod bad;
#[cfg(test)]
mod good;
