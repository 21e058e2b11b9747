//! Edits of a list that is in order: what comes and what goes.
//!
//! What comes stands before all that later edits tell of; several that go may be told before one that comes to a place before theirs.
//! Each edit concerns what the one before it has left. So a list of them is carried out in one pass, and a change of few items is
//! told by few edits. `Rattle.sup_edits.specs.Edits` has what they leave, and `Rattle.sup_edits.proofs.EditLaws` how they are made
//! of what stays, comes and goes.
#![tactic(auto)]

pub mod edit;

pub use edit::Edit;
