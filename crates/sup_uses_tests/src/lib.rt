//! The callers of the library, run.
#![tactic(auto)]

#[cfg(test)]
mod callers;
#[cfg(test)]
mod given;
