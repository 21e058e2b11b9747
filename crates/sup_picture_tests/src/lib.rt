//! The tests of pictures and of their texts. What is expected is worked by hand from what happens in the logs.
#![tactic(auto)]

#[cfg(test)]
mod arrows;
#[cfg(test)]
mod given;
#[cfg(test)]
mod svg;
#[cfg(test)]
mod turns;
