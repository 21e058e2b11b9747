//! Buffers for the next text.
ghost use Rattle.std.specs.Prelude.{◌≡◌, [], IfOk};

use std::alloc::{AllocError, Global};

/// Buffers of a text that is used no more, for the next one, so that this asks for no new memory where they are large enough.
/// What they held is of no use. No contract speaks of them.
#[derive(Drop)]
pub struct Room {
    pub(crate) text: Vec<u8>,
    pub(crate) ends: Vec<usize>,
}

impl Room {
    /// No buffers yet.
    pub fn new(alloc: Global) -> Room {
        Room {
            text: Vec::new(alloc),
            ends: Vec::new(alloc),
        }
    }
}

// An empty buffer with room for so many: this one, or a new one with an eighth more, so that a text that grows a little fits
// next time.
pub(crate) fn emptied<T: Drop>(buffer: Vec<T>, wanted: usize) -> Result<Vec<T>, AllocError>
    ensures { IfOk result (λ buffer. buffer.items ≡ []) }
{
    let mut buffer = buffer;
    if buffer.capacity() < wanted {
        return Vec::with_capacity(*buffer.allocator(), wanted.saturating_add(wanted / 8));
    }
    buffer.clear();
    Ok(buffer)
}
