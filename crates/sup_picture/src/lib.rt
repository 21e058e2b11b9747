//! A picture of a run: its rows, the arrows of its messages, the bars of its children and the gaps of its nodes, from a log of
//! what happened.
#![tactic(auto)]

pub mod arrows;
pub mod bars;
pub mod children;
pub mod gaps;
pub mod log;
pub mod picture;

pub use arrows::{Arrow, End, arrows_of, receiver_of};
pub use bars::{Bar, bars_of};
pub use children::children_of;
pub use gaps::{Gap, gaps_of};
pub use log::{Caption, Change, ChildRun, Log, Mark, Message, Post, Row, Turn, Way};
pub use picture::{Picture, picture_of};
