//! What a step tells of messages.

ghost use Rattle.std.specs.Prelude.{◌≡◌, ◌++◌, OnOk};
ghost use Rattle.sup_noting.specs.Messages.{came_done, came_refused, left_by, place_of, receiver, way_done, way_in_vain, way_refused, way_whole};

use std::alloc::AllocError;
use sup_model::Step;
use sup_picture::{Message, Post, Way, receiver_of};
use sup_replica::{Letter, Refusal, Reply};
use sup_specs::NodeName;

/// Adds that a delivery's message came, to the node that answered.
pub fn add_came(
    posts: &mut Vec<Post>,
    step: &Step,
    at: &NodeName,
    reply: &Reply,
    row: u64,
) -> Result<(), AllocError>
    ensures { OnOk result (posts.new.items ≡ posts.old.items ++ came_done row step.now at.now reply.now) }
{
    if let Step::Deliver { from, k, drop, .. } = step {
        posts.push(Post::Came {
            message: Message {
                from: *from,
                number: *k,
            },
            at: *at,
            way: way_done(*drop, reply),
            row,
        })?;
    }
    Ok(())
}

/// Adds that a letter left with this number.
pub fn add_left(
    posts: &mut Vec<Post>,
    from: &NodeName,
    letter: &Option<Letter>,
    number: Option<u64>,
    row: u64,
) -> Result<(), AllocError>
    ensures { OnOk result (posts.new.items ≡ posts.old.items ++ left_by row from.now letter.now number) }
{
    if let (Some(letter), Some(number)) = (letter, number) {
        posts.push(Post::Left {
            message: Message {
                from: *from,
                number,
            },
            to: letter.to,
            row,
        })?;
    }
    Ok(())
}

/// Adds that a delivery's message came and was refused, by the posts that are known; nothing where it was refused since there is
/// no such message or node, or where no node is named and it left in no row.
pub fn add_refused(
    known: &[Post],
    posts: &mut Vec<Post>,
    step: &Step,
    refusal: Refusal,
    row: u64,
) -> Result<(), AllocError>
    ensures { OnOk result (posts.new.items ≡ posts.old.items ++ came_refused known.now row step.now refusal) }
{
    if let Step::Deliver {
        from,
        k,
        at,
        drop,
        ..
    } = step
    {
        let message = Message {
            from: *from,
            number: *k,
        };
        let Some(way) = way_refused(*drop, refusal) else {
            return Ok(());
        };
        if let Some(at) = receiver(known, &message, at) {
            posts.push(Post::Came {
                message,
                at,
                way,
                row,
            })?;
        }
    }
    Ok(())
}

/// The node to which a step that was refused came: of a delivery that names no node, of a message that was never sent or left in
/// a settling, its sender.
pub fn place_of(posts: &[Post], step: &Step) -> NodeName
    ensures { result ≡ place_of posts.now step.now }
{
    match step {
        Step::Node { at, .. } => *at,
        Step::Raw { at, .. } => *at,
        Step::Deliver { from, k, at, .. } => {
            let message = Message {
                from: *from,
                number: *k,
            };
            match receiver(posts, &message, at) {
                Some(receiver) => receiver,
                None => *from,
            }
        }
    }
}

// Where a message comes: to the node that is named, or else to its receiver, which is known where it left in a row.
fn receiver(posts: &[Post], message: &Message, at: &Option<NodeName>) -> Option<NodeName>
    ensures { result ≡ receiver posts.now message.now at.now }
{
    match at {
        Some(at) => Some(*at),
        None => receiver_of(posts, message),
    }
}

// What became of a message that wasn't refused.
fn way_done(drop: u64, reply: &Reply) -> Way
    ensures { result ≡ way_done drop reply.now }
{
    if drop == 0 {
        way_whole(reply)
    } else {
        Way::Cut
    }
}

// What became of a whole message.
fn way_whole(reply: &Reply) -> Way
    ensures { result ≡ way_whole reply.now }
{
    match reply {
        Reply::Known => Way::Known,
        Reply::Acked => Way::Acked,
        Reply::Added(_)
        | Reply::Replaced(_, _)
        | Reply::Removed(_)
        | Reply::Restarted
        | Reply::Finished(_)
        | Reply::GaveUp(_)
        | Reply::Sent
        | Reply::Absorbed
        | Reply::Stopped
        | Reply::Boot(_) => Way::Learned,
    }
}

// What became of a message that was refused; nothing where there is no such message or node.
fn way_refused(drop: u64, refusal: Refusal) -> Option<Way>
    ensures { result ≡ way_refused drop refusal }
{
    match refusal {
        Refusal::NoSuchMessage | Refusal::UnknownNode => None,
        Refusal::WrongReceiver => Some(Way::Misdirected),
        Refusal::Down
        | Refusal::AlreadyUp
        | Refusal::AlreadyPresent
        | Refusal::NotFound
        | Refusal::AlreadyMember
        | Refusal::NotMember
        | Refusal::NameTaken
        | Refusal::NoSuchChild
        | Refusal::NameUnknown
        | Refusal::DotsSpent
        | Refusal::UpToDate
        | Refusal::StaleExit
        | Refusal::TableFull
        | Refusal::KeepFailed
        | Refusal::BadMessage
        | Refusal::OutOfMemory
        | Refusal::HistoryFull
        | Refusal::CountSpent
        | Refusal::NothingToPush
        | Refusal::AlreadyDraining => Some(way_in_vain(drop)),
    }
}

// What became of a message that was refused, though no node told that it was for another.
fn way_in_vain(drop: u64) -> Way
    ensures { result ≡ way_in_vain drop }
{
    if drop == 0 { Way::Refused } else { Way::Cut }
}
