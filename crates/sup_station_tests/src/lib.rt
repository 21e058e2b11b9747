//! The tests of stations, of their nodes and keepers and of what is printed of them, through public calls. A crate with tests
//! is proved twice, once without and once with them: here there is nothing to prove without them.
#![tactic(auto)]

#[cfg(test)]
mod bytes;
#[cfg(test)]
mod ends;
#[cfg(test)]
mod few_weighings;
#[cfg(test)]
mod fuses;
#[cfg(test)]
mod given;
#[cfg(test)]
mod images;
#[cfg(test)]
mod keepers;
#[cfg(test)]
mod line;
#[cfg(test)]
mod many_children;
#[cfg(test)]
mod refused;
#[cfg(test)]
mod rows;
#[cfg(test)]
mod scarcity;
#[cfg(test)]
mod shows;
#[cfg(test)]
mod stage;
#[cfg(test)]
mod told;
#[cfg(test)]
mod unreadable;
#[cfg(test)]
mod walked_acts;
#[cfg(test)]
mod walks;
