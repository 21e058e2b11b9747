//! The tests of files to which records are appended. What is expected was made by `reference/journal.py`, which knows the rules alone.
#![tactic(auto)]

#[cfg(test)]
mod checksums;
#[cfg(test)]
mod cut_files;
#[cfg(test)]
mod given;
#[cfg(test)]
mod made_records;
#[cfg(test)]
mod read_files;
