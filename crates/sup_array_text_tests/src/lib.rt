//! The tests of texts with an array, through their public calls. A crate with tests is proved twice, once without and once
//! with them: here there is nothing to prove without them.
#![tactic(auto)]

#[cfg(test)]
mod arrays;
#[cfg(test)]
mod words;
