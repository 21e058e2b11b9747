//! Pictures of runs as SVG texts.
#![tactic(auto)]

mod arrows;
mod bars;
mod escape;
mod grid;
mod lanes;
mod pieces;
mod rows;
mod style;
pub mod svg;

pub use svg::svg_of;
