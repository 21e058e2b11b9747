//! Links from one thread to another that lose, double and hold messages, each by a script.
//!
//! What comes out is known beforehand, whatever the threads do: it is a beginning of the `image` of the script and the list put, and all
//! of it where the end mark was taken. The two ends prove that when they meet.
//!
//! ```rust
//! use sup_links::{LinkScript, Verdict, link};
//!
//! let script = LinkScript([Verdict::Hold(1), Verdict::Twice].to_vec(rt.alloc())?);
//! let (mut entry, mut exit) = link(rt.alloc(), script, 16)?;
//! entry.put(&rt, first)?;
//! entry.put(&rt, second)?;
//! let sent = entry.end(&rt);
//! // Gives second, second, first, and then None.
//! let message = exit.take(&rt)?;
//! exit.meet(sent);
//! ```
#![tactic(auto)]

mod channel;
mod copies;
mod held;
mod images;
mod link_in;
mod link_out;
mod links;
mod log;
mod pipe;
mod script;
mod sending;

pub use images::image;
pub use link_in::{LinkIn, PutFault, Sent};
pub use link_out::{Closed, LinkOut};
pub use links::{MAX_CAPACITY, a_link_has_room_for_1024_messages_at_most, link};
pub use script::{LinkScript, Verdict};
