//! An edit.

/// What comes to its place, or what goes from there. Where an item gives its place to another, it goes first.
#[derive(Clone, Copy)]
pub enum Edit<T> {
    Comes(T),
    Goes(T),
}
