//! The tests of `sup_replica`: what is set for a node, numbers of refusals and copies; and of
//! `sup_text`: what is printed of answers. The expected lines are worked by hand from the forms of
//! the output.
#![tactic(auto)]

#[cfg(test)]
mod answers;
#[cfg(test)]
mod copies;
#[cfg(test)]
mod settings;
#[cfg(test)]
mod values;
