//! Texts inside XML.

ghost use Rattle.std.specs.Prelude.{◌≡◌, ◌==◌, ◌<◌, ◌++◌, IfOk, IfSome, OnOk, length, position, string_bytes};
ghost use Rattle.std.specs.List.{flat_map};
ghost use Rattle.sup_svg.specs.Escapes.{escape_of, first_line};

use std::alloc::{AllocError, Global};

/// A text as it stands in XML: `&`, `<`, `>`, `'` and `"` are named, line feeds and the other bytes from ` ` to `~` stay, and all
/// else is question marks.
pub fn escaped(alloc: Global, text: &[u8]) -> Result<String, AllocError>
    ensures { IfOk result (λ s. string_bytes s ≡ flat_map escape_of text.now) }
{
    let mut escaped = String::new(alloc);
    for byte in text {
        put_escaped(&mut escaped, *byte)?;
    }
    Ok(escaped)
}

// Adds a byte.
fn put_escaped(escaped: &mut String, byte: u8) -> Result<(), AllocError>
    ensures { OnOk result (string_bytes escaped.new ≡ string_bytes escaped.old ++ escape_of byte) }
{
    match byte {
        b'&' => escaped.push_str("&amp;"),
        b'<' => escaped.push_str("&lt;"),
        b'>' => escaped.push_str("&gt;"),
        b'\'' => escaped.push_str("&apos;"),
        b'"' => escaped.push_str("&quot;"),
        b'\n' | b' '..=b'~' => escaped.push(char::from(byte)),
        _ => escaped.push_str("?"),
    }
}

/// The first line of a text, without its line feed.
pub fn first_line<'a>(text: &'a [u8]) -> &'a [u8]
    ensures { result.now ≡ first_line text.entry.now }
{
    match find_feed(text) {
        Some(end) => &text[..end],
        None => text,
    }
}

fn find_feed(text: &[u8]) -> Option<usize>
    ensures place { result ≡ position (λ byte. byte == 10) text.now }
    ensures bound { IfSome result (λ end. end < length text.now) }
{
    text.iter().position(|byte| *byte == b'\n')
}
