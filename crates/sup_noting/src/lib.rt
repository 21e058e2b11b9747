//! What the answers of a run tell a picture: a row for each line, and what became of messages, nodes and children.
#![tactic(auto)]

mod noted;
mod posts;
mod turns;

pub use noted::{note_answer, note_look, note_refusal, note_settling, note_unsettled};
