//! Numbers in words.

ghost use Rattle.std.specs.Prelude.{◌≡◌};
ghost use Rattle.sup_command_line.specs.Numbers.{number_of};

/// The number that a text is, as an integer of Rust is parsed: decimal digits, with or without a plus before them. None
/// where it is none, or 32 bits don't hold it.
pub fn number_of(text: &str) -> Option<u32>
    ensures { result ≡ number_of text.now }
{
    text.parse::<u32>().ok()
}
