//! Parts of a text, as far as they are there.
ghost use Rattle.std.specs.Prelude.{◌≡◌, take, drop};

// So many bytes from the front.
pub(crate) fn front<'a>(text: &'a [u8], count: u64) -> &'a [u8]
    ensures { result.now ≡ take count text.entry.now }
{
    if count < text.len() as u64 {
        &text[..count as usize]
    } else {
        text
    }
}

// What stands behind so many bytes.
pub(crate) fn behind<'a>(text: &'a [u8], count: u64) -> &'a [u8]
    ensures { result.now ≡ drop count text.entry.now }
{
    if count < text.len() as u64 {
        &text[count as usize..]
    } else {
        &[]
    }
}
