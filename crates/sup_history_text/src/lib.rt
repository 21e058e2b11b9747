//! The text of a node's history: what a node heard and told, one begin after another.
//!
//! A history is a file that is only ever appended to. `whole_lines` leaves out what was being written when the node
//! ended, and `read_history` reads the lines that are left, or tells the first one that stands in no history there. What
//! stands behind `begin `, `<` and `>` is not looked at.
//!
//! ```rust
//! use sup_history_text::{read_history, whole_lines};
//!
//! let lines = whole_lines(alloc, &bytes)?;
//! for session in &read_history(alloc, lines.as_slice())? {
//!     // session.begin.bytes is `begin a sha256 1 5 64 0`, session.unasked the answer `ok boot 1`.
//!     for exchange in &session.exchanges {
//!         // exchange.heard.bytes is `<join`; exchange.answer.end is none where nobody was told the whole answer.
//!     }
//! }
//! ```
#![tactic(auto)]

pub mod answer;
pub mod exchange;
pub mod fault;
pub mod history;
pub mod kinds;
pub mod laws;
pub mod line;
pub mod session;

pub use answer::Answer;
pub use exchange::Exchange;
pub use fault::HistoryFault;
pub use history::read_history;
pub use kinds::{LineKind, kind_of};
pub use laws::a_history_has_one_reading;
pub use line::{NumberedLine, whole_lines};
pub use session::Session;
