//! The words of a program are put into memory.

ghost use Rattle.std.specs.Prelude.{◌≡◌, drop, IfErr, IfOk};
ghost use Rattle.std.specs.Vec.Iter.{into_iter_items};

use std::alloc::{AllocError, Global};
use std::env::Args;

/// Where the words of a program are put.
pub trait Room: Drop {
    // Memory for them may be lacking.
    ghost may_lack: { Self → Type 0 };

    /// The words behind the program's name, the first of its arguments.
    ///
    /// # Errors
    ///
    /// Where memory for them is lacking.
    fn words_of(self, arguments: Args) -> Result<Vec<String>, AllocError>
        ensures words { IfOk result (λ words. words.items ≡ drop 1 (into_iter_items arguments)) }
        ensures lacks { IfErr result (λ _. may_lack self) };
}

/// The memory of the system.
#[derive(Drop)]
pub struct SystemRoom {
    pub alloc: Global,
}

impl Room for SystemRoom {
    // When memory is refused is the system's.
    ghost may_lack = { λ _. Unit {0} };

    fn words_of(self, arguments: Args) -> Result<Vec<String>, AllocError> {
        let words = arguments.skip(1).collect(self.alloc)?;
        Ok(words)
    }
}
