//! The text of the next image, put together from the texts of the last one's rows: what stands before the rows is written anew, rows
//! that stay are copied, and those that come are written. And the text of a delta with all rows, which are copied too.
//!
//! ```rust
//! use sup_array_text::Room;
//! use sup_image_text::{NextImage, RowChange, text_after};
//!
//! // The text of the last image, with its rows' texts.
//! let texts = sup_wire::text_of(alloc, &image)?;
//! let rows = RowChange::Edits(tables.lent_edits_after(alloc, &plan)?);
//! // The same bytes as `sup_wire::encode_image` gives of the next image.
//! let next = text_after(alloc, &texts, &NextImage { heading, rows }, Room::new(alloc))?;
//! ```
#![tactic(auto)]

mod editing;
pub mod messages;
pub mod next;
pub mod next_image;
mod places;
mod searching;
mod writing;

pub use messages::delta_text;
pub use next::{is_few, text_after};
pub use next_image::{NextImage, RowChange};
