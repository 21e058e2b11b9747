//! Scripts as pictures: their steps are made by a world, and what was answered is drawn.
#![tactic(auto)]

mod drawn;
mod play;

pub use drawn::draw_lines;
