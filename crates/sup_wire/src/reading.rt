//! Reading a JSON value: small readers that mirror the forms.
pub(crate) mod child;
pub(crate) mod context;
pub(crate) mod dots;
pub(crate) mod fields;
pub(crate) mod images;
pub(crate) mod messages;
pub(crate) mod parts;
pub(crate) mod rows;
pub(crate) mod texts;
