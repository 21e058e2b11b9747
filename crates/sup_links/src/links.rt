//! Links are made here, as two ends.
ghost use Rattle.std.specs.Prelude.{◌≡◌, ◌≤◌, [], IfOk, false};
ghost use Rattle.sup_links.specs.Ends.{script_of, room_of, put_of, is_closed, taken_of, has_ended, AreOneLink};

use crate::link_in::LinkIn;
use crate::link_out::LinkOut;
use crate::pipe::pipe;
use crate::script::LinkScript;
use std::alloc::{AllocError, Global};

/// The greatest capacity of a link, in messages on their way.
pub const MAX_CAPACITY: usize = 1024;

/// A link has room for 1,024 messages at most.
pub fn a_link_has_room_for_1024_messages_at_most()
    ensures { MAX_CAPACITY ≡ 1024 }
{}

/// A link with this script, with room for `capacity` messages on their way, from 1 to [`MAX_CAPACITY`].
///
/// # Errors
///
/// Where there is no memory.
pub fn link(
    alloc: Global,
    script: LinkScript,
    capacity: usize,
) -> Result<(LinkIn, LinkOut), AllocError>
    requires low { 1 ≤ capacity }
    requires high { capacity ≤ MAX_CAPACITY }
    ensures one { IfOk result (λ p. AreOneLink p.0 p.1) }
    ensures script { IfOk result (λ p. script_of p.0 ≡ script.0.items) }
    ensures room { IfOk result (λ p. room_of p.0 ≡ capacity) }
    ensures none_put { IfOk result (λ p. put_of p.0 ≡ []) }
    ensures open { IfOk result (λ p. is_closed p.0 ≡ false) }
    ensures none_taken { IfOk result (λ p. taken_of p.1 ≡ []) }
    ensures not_ended { IfOk result (λ p. has_ended p.1 ≡ false) }
{
    let (entry, exit) = pipe(alloc, capacity)?;
    Ok((LinkIn::new(alloc, script, entry), LinkOut::new(exit)))
}
