//! What is told of answers and entries.
use sup_node_gate::{Busy, Entry};
use sup_replica::{Act, Done, Event, Letter, Refusal, Reply};

/// The counter of the dot that an entry was added under, if one was.
pub(crate) fn added(answer: &Result<Done, Refusal>) -> Option<u64> {
    match answer {
        Ok(done) => match &done.reply {
            Reply::Added(dot) => Some(dot.counter),
            _ => None,
        },
        Err(_) => None,
    }
}

/// The same of one try.
pub(crate) fn tried(answer: &Result<Result<Done, Refusal>, Busy>) -> Option<u64> {
    match answer {
        Ok(answer) => added(answer),
        Err(_) => None,
    }
}

/// Why one try was refused, if it was, by the station or by the gate.
pub(crate) fn refused(answer: &Result<Result<Done, Refusal>, Busy>) -> Option<Refusal> {
    match answer {
        Ok(Err(refusal)) => Some(*refusal),
        _ => None,
    }
}

/// Whether both are the same refusal, or add, remove or send the same.
pub(crate) fn agree(left: &Result<Done, Refusal>, right: &Result<Done, Refusal>) -> bool {
    match (left, right) {
        (Ok(left), Ok(right)) => {
            reply_alike(&left.reply, &right.reply) && out_alike(&left.out, &right.out)
        }
        (Err(left), Err(right)) => left == right,
        _ => false,
    }
}

fn reply_alike(left: &Reply, right: &Reply) -> bool {
    match (left, right) {
        (Reply::Added(left), Reply::Added(right)) => left == right,
        (Reply::Removed(left), Reply::Removed(right)) => left.as_slice() == right.as_slice(),
        (Reply::Sent, Reply::Sent) => true,
        _ => false,
    }
}

fn out_alike(left: &Option<Letter>, right: &Option<Letter>) -> bool {
    match (left, right) {
        (Some(left), Some(right)) => {
            left.to == right.to && left.bytes.as_slice() == right.bytes.as_slice()
        }
        (None, None) => true,
        _ => false,
    }
}

// Whether the act is on the child, or to the node, of this name.
fn is_of(act: &Act, of: &str) -> bool {
    match act {
        Act::Event(Event::Start(id, _)) => id.as_str() == of,
        Act::Event(Event::Delete(id)) => id.as_str() == of,
        Act::Event(Event::Push(to)) => to.as_str() == of,
        _ => false,
    }
}

/// How many acts of this name a history has, if their moments are 0, 1, 2 and so on.
pub(crate) fn in_order(history: &[Entry], of: &str) -> Option<u64> {
    let mut next = 0u64;
    for entry in history {
        if is_of(&entry.act, of) {
            if entry.now != next {
                return None;
            }
            next = next.saturating_add(1);
        }
    }
    Some(next)
}
