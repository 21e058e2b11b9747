//! The tests of `sup_supctl`, `sup_program` and `sup_placing` that are no script with its output:
//! words of the command line, inputs of the greatest length, threads, and devices and memory that
//! fail. Scripts with their outputs are cases of `sup_rows`. A crate with tests is proved twice,
//! once without and once with them: here there is nothing to prove without them.
#![tactic(auto)]

#[cfg(test)]
mod cluster_faults;
#[cfg(test)]
mod clusters;
#[cfg(test)]
mod devices;
#[cfg(test)]
mod inputs;
#[cfg(test)]
mod memory;
#[cfg(test)]
mod options;
#[cfg(test)]
mod plain;
#[cfg(test)]
mod runs;
#[cfg(test)]
mod usage;
#[cfg(test)]
mod wordless;
#[cfg(test)]
mod words;
