//! A talk: a host says lines, and each is answered before the next is heard.
#![tactic(auto)]

pub mod host;
pub mod line;
pub mod streams;
pub mod talking;

pub use host::Host;
pub use line::{LINE_LIMIT, LineFault, Taken, a_line_has_64_mib_at_most, take_line};
pub use streams::Streams;
pub use talking::{Answerer, TalkEnd, TalkFault, talk};
