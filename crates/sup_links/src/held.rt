//! The messages that wait at an end of a link, and how one put more moves them on.
ghost use Rattle.std.specs.Prelude.{◌≡◌, ◌++◌, MatchResult, OnErr};
ghost use Rattle.sup_links.specs.Waiting.{waiting, held_back, counted, kept};

/// A message that waits, and for how many puts from here on.
#[derive(Drop)]
pub struct Held {
    pub left: u32,
    pub text: Vec<u8>,
}

// One message more was put.
pub fn count_down(held: &mut Vec<Held>)
    ensures { waiting held.new.items ≡ counted (waiting held.old.items) }
{
    for message in held.iter_mut() {
        message.left = message.left.saturating_sub(1);
    }
}

// Removes those that wait no more.
pub fn keep_waiting(held: &mut Vec<Held>)
    ensures { waiting held.new.items ≡ kept (waiting held.old.items) }
{
    held.retain(|message| message.left != 0);
}
