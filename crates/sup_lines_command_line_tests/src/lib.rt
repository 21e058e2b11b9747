//! The tests of `sup_lines`, which reads scripts, and of `sup_command_line`, which reads what the
//! words of the command line ask for, through their public calls. A crate with tests is proved
//! twice, once without and once with them: here there is nothing to prove without them.
#![tactic(auto)]

#[cfg(test)]
mod bad;
#[cfg(test)]
mod good;
#[cfg(test)]
mod parts;
#[cfg(test)]
mod refused_words;
#[cfg(test)]
mod scripts;
#[cfg(test)]
mod taken_words;
#[cfg(test)]
mod told;
