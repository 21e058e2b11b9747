//! The tests of the world over stations, through its public calls: most are scripts that a world plays line by line, with
//! the lines that it has to tell. A crate with tests is proved twice, once without and once with them: here there is nothing
//! to prove without them.
#![tactic(auto)]

#[cfg(test)]
mod cuts;
#[cfg(test)]
mod deliveries;
#[cfg(test)]
mod drains;
#[cfg(test)]
mod ends;
#[cfg(test)]
mod failing;
#[cfg(test)]
mod given;
#[cfg(test)]
mod images;
#[cfg(test)]
mod made;
#[cfg(test)]
mod messages;
#[cfg(test)]
mod moments;
#[cfg(test)]
mod newness;
#[cfg(test)]
mod raw;
#[cfg(test)]
mod refusals;
#[cfg(test)]
mod refused;
#[cfg(test)]
mod rows;
#[cfg(test)]
mod runs;
#[cfg(test)]
mod seen;
#[cfg(test)]
mod stage;
#[cfg(test)]
mod told;
#[cfg(test)]
mod travels;
