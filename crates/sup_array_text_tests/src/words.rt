//! Words as items.
ghost use Rattle.std.specs.Prelude.{◌≡◌, ⊤, codes};

use std::alloc::{AllocError, AllocGlobal};
use std::process::Abort;
use sup_array_text::{ArrayBuilding, ArrayText, Item};

// A word, which is written as it is.
#[derive(Clone, Copy)]
pub(crate) struct Word(pub(crate) &'static str);

impl Item for Word {
    ghost item_text = { λ word. word.0.now };

    ghost is_sound = { λ word. ⊤ };

    fn write_after(&self, front: Vec<u8>) -> Result<Vec<u8>, AllocError> {
        let mut all = front;
        all.extend_from_slice(self.0.as_bytes())?;
        Ok(all)
    }
}

// An array behind this front, with no room taken before it is wanted.
pub(crate) fn begun(
    rt: &impl AllocGlobal,
    front: &str,
    words: &[Word],
) -> Result<ArrayBuilding, AllocError> {
    let mut array = ArrayBuilding::new(front.as_bytes().to_vec(rt.alloc())?, 0, 0)?;
    for word in words {
        array = array.with_item(word)?;
    }
    Ok(array)
}

pub(crate) fn expect_text(rt: &impl Abort, array: &ArrayText, wanted: &str, count: usize) {
    assert_eq!(rt; array.text(), wanted.as_bytes());
    assert_eq!(rt; array.count(), count);
}
