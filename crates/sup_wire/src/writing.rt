//! Writing a JSON text: a message a token at a time, an image by its parts.
pub(crate) mod context;
pub(crate) mod fields;
pub(crate) mod fronts;
pub(crate) mod images;
pub(crate) mod lending;
pub(crate) mod messages;
pub(crate) mod rows;
