//! What is written as an item.
ghost use Rattle.std.specs.Prelude.{◌≡◌, ◌++◌, IfOk};
ghost use Rattle.sup_array_text.specs.Arrays.{Bytes};

use std::alloc::AllocError;

/// What is written as an item of an array.
pub trait Item {
    /// Its text.
    ghost item_text: { Self → Bytes };

    /// What is known of it once it was written.
    ghost is_sound: { Self → Type 0 };

    /// Writes its text behind what the buffer has. An `Err` where a growth was refused; the buffer is then dropped.
    fn write_after(&self, front: Vec<u8>) -> Result<Vec<u8>, AllocError>
        ensures text { IfOk result (λ all. all.items ≡ front.items ++ item_text self.now) }
        ensures sound { IfOk result (λ all. is_sound self.now) };
}
