//! Messages and images as exact JSON texts.
#![tactic(auto)]

pub mod codec;
pub mod fault;
pub mod heading;
pub mod image;
pub mod image_parts;
pub mod laws;
mod lent_image;
pub mod message;
mod reading;
pub mod row_item;
pub mod version;
mod writing;

pub use codec::{
    decode, decode_image, encode, encode_after, encode_image, encode_image_after, text_of,
};
pub use fault::WireFault;
pub use heading::Heading;
pub use image::Image;
pub use image_parts::{closed_image, image_front};
pub use message::Message;
pub use row_item::RowItem;
