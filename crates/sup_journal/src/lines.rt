//! Lines of a text.
ghost use Rattle.std.specs.Prelude.{◌≡◌, ◌<◌, ◌↔◌, IsTrue, IfSome, MatchOption, length, position};
ghost use Rattle.sup_journal.specs.Files.{is_feed, IsOneLine, IsCut};

use crate::slices::behind;

/// Whether there is no line feed in it.
pub fn is_one_line(text: &[u8]) -> bool
    ensures { IsTrue result ↔ IsOneLine text.now }
{
    !text.contains(&b'\n')
}

// The first line, and what is behind its line feed; none where no line feed ends it.
pub(crate) fn cut_line<'a>(text: &'a [u8]) -> Option<(&'a [u8], &'a [u8])>
    ensures { MatchOption result (IsOneLine text.entry.now) (λ cut. IsCut text.entry.now cut.0.now cut.1.now) }
{
    match find_feed(text) {
        Some(end) => Some((&text[..end], behind(text, end as u64 + 1))),
        None => None,
    }
}

fn find_feed(text: &[u8]) -> Option<usize>
    ensures place { result ≡ position is_feed text.now }
    ensures within { IfSome result (λ end. end < length text.now) }
{
    text.iter().position(|byte| *byte == b'\n')
}
