//! The arrows of messages: one for each time that one came, and one for each that was lost.

ghost use Rattle.std.specs.Prelude.{◌≡◌, find, IfOk};
ghost use Rattle.std.specs.Option.{option_copied};
ghost use Rattle.std.specs.List.{filter_map, list_any};
ghost use Rattle.sup_picture.specs.Messages.{came_whole, comes_whole, is_of, is_whole, leaves, left_row, receiver_at, receiver_of, row_at};
ghost use Rattle.sup_picture.specs.Arrows.{arrow_of, arrows_of};

use crate::log::{Message, Post, Way};
use std::alloc::{AllocError, Global};
use sup_specs::NodeName;

/// How an arrow ends.
#[derive(Clone, Copy)]
pub enum End {
    /// In this row, at the node where the message came.
    Came { row: u64, way: Way },
    /// On its way: no delivery brought it whole to its receiver.
    Lost,
}

/// The arrow of a message.
#[derive(Clone, Copy)]
pub struct Arrow {
    pub message: Message,
    /// The row in which it left; none where the log has no such row, as of one that left while the nodes settled.
    pub left: Option<u64>,
    /// Where it came, or the receiver of a lost one.
    pub to: NodeName,
    pub end: End,
}

/// The arrows, in the order in which messages came or, where they were lost, left.
///
/// # Errors
///
/// `AllocError` where memory was refused.
pub fn arrows_of(alloc: Global, posts: &[Post]) -> Result<Vec<Arrow>, AllocError>
    ensures { IfOk result (λ arrows. arrows.items ≡ arrows_of posts.now) }
{
    posts
        .iter()
        .filter_map(|post| arrow_of(posts, post))
        .collect(alloc)
}

/// The receiver of a message, by the first post of the log that tells that it left; none where none does.
pub fn receiver_of(posts: &[Post], message: &Message) -> Option<NodeName>
    ensures { result ≡ receiver_of posts.now message.now }
{
    match find_left(posts, message) {
        Some(post) => receiver_at(post),
        None => None,
    }
}

// The arrow that ends with this.
fn arrow_of(posts: &[Post], post: &Post) -> Option<Arrow>
    ensures { result ≡ arrow_of posts.now post.now }
{
    match post {
        Post::Came {
            message,
            at,
            way,
            row,
        } => Some(Arrow {
            message: *message,
            left: left_row(posts, message),
            to: *at,
            end: End::Came {
                row: *row,
                way: *way,
            },
        }),
        Post::Left { message, to, row } => lost_arrow(posts, message, to, *row),
    }
}

// The arrow of a message that left in this row, if it was lost.
fn lost_arrow(posts: &[Post], message: &Message, to: &NodeName, row: u64) -> Option<Arrow>
    ensures { result ≡ arrow_of posts.now (Post.Left message.now to.now row) }
{
    if came_whole(posts, message, to) {
        return None;
    }
    Some(Arrow {
        message: *message,
        left: Some(row),
        to: *to,
        end: End::Lost,
    })
}

// The row in which a message left.
fn left_row(posts: &[Post], message: &Message) -> Option<u64>
    ensures { result ≡ left_row posts.now message.now }
{
    match find_left(posts, message) {
        Some(post) => row_at(post),
        None => None,
    }
}

// Where a message left.
fn find_left<'a>(posts: &'a [Post], message: &Message) -> Option<&'a Post>
    ensures { option_copied result ≡ find (leaves message.now) posts.now }
{
    posts.iter().find(|post| leaves(post, message))
}

// The row in which a message leaves here.
fn row_at(post: &Post) -> Option<u64>
    ensures { result ≡ row_at post.now }
{
    match post {
        Post::Left { row, .. } => Some(*row),
        Post::Came { .. } => None,
    }
}

// The receiver of a message that leaves here.
fn receiver_at(post: &Post) -> Option<NodeName>
    ensures { result ≡ receiver_at post.now }
{
    match post {
        Post::Left { to, .. } => Some(*to),
        Post::Came { .. } => None,
    }
}

// Whether a message came whole to this receiver.
fn came_whole(posts: &[Post], message: &Message, to: &NodeName) -> bool
    ensures { result ≡ came_whole posts.now message.now to.now }
{
    posts.iter().any(|post| comes_whole(post, message, to))
}

// Whether the message leaves here.
fn leaves(post: &Post, message: &Message) -> bool
    ensures { result ≡ leaves message.now post.now }
{
    match post {
        Post::Left { message: other, .. } => is_of(message, other),
        Post::Came { .. } => false,
    }
}

// Whether the message comes whole to this receiver here.
fn comes_whole(post: &Post, message: &Message, to: &NodeName) -> bool
    ensures { result ≡ comes_whole message.now to.now post.now }
{
    match post {
        Post::Left { .. } => false,
        Post::Came {
            message: other,
            at,
            way,
            ..
        } => is_whole(*way) && is_of(message, other) && *at == *to,
    }
}

// Whether they are the same message.
fn is_of(message: &Message, other: &Message) -> bool
    ensures { result ≡ is_of message.now other.now }
{
    message.number == other.number && message.from == other.from
}

// Whether nothing of it was missing, and no node told that it was for another.
fn is_whole(way: Way) -> bool
    ensures { result ≡ is_whole way }
{
    match way {
        Way::Cut | Way::Misdirected => false,
        Way::Learned | Way::Known | Way::Acked | Way::Refused => true,
    }
}
