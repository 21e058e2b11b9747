//! The tests of `supd`, over `sup_supd` and `sup_asked`: a node that answers lines, over a disk in
//! memory that fails as it is told, and what words and lines ask for.
#![tactic(auto)]

#[cfg(test)]
mod asked;
#[cfg(test)]
mod images;
pub mod later_disk;
pub mod noting;
#[cfg(test)]
mod runs;
#[cfg(test)]
mod settings;
