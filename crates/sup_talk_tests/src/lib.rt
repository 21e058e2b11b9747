//! The tests of a talk with a host, over streams that stutter, fail and have little room.
#![tactic(auto)]

pub mod fakes;
#[cfg(test)]
mod talks;
