//! Records, each a line.
ghost use Rattle.std.specs.Prelude.{◌≡◌, IfOk};
ghost use Rattle.std.specs.List.{list_all};
ghost use Rattle.std.specs.Char.{is_ascii_digit};
ghost use Rattle.sup_journal.specs.Records.{is_sum_of, is_record, is_sound, applied, after};

use crate::edits::edited;
use crate::fnv::checksum;
use crate::numbers::number_of;
use crate::slices::behind;
use std::alloc::{AllocError, Global};

// The digits of a checksum.
pub(crate) const SUM: usize = 20;

#[tactic(auto, unfolding(crate::specs::Records::is_record))]
pub(crate) fn is_record(line: &[u8]) -> bool
    ensures { result ≡ is_record line.now }
{
    line.len() >= SUM && is_sum_of(&line[..SUM], &line[SUM..])
}

// Whether these are digits, of the checksum of these edits.
#[tactic(auto, unfolding(crate::specs::Records::is_sum_of))]
fn is_sum_of(digits: &[u8], edits: &[u8]) -> bool
    ensures { result ≡ is_sum_of digits.now edits.now }
{
    are_digits(digits) && number_of(digits) == checksum(edits)
}

fn are_digits(bytes: &[u8]) -> bool
    ensures { result ≡ list_all is_ascii_digit bytes.now }
{
    bytes.iter().all(|byte| byte.is_ascii_digit())
}

// Whether it may stand behind an image: a record, or nothing.
pub(crate) fn is_sound(line: &[u8]) -> bool
    ensures { result ≡ is_sound line.now }
{
    line.is_empty() || is_record(line)
}

// What a record makes of an image.
#[tactic(auto, unfolding(crate::specs::Records::applied))]
pub(crate) fn applied(alloc: Global, line: &[u8], image: &[u8]) -> Result<Vec<u8>, AllocError>
    ensures { IfOk result (λ made. made.items ≡ applied line.now image.now) }
{
    edited(alloc, behind(line, SUM as u64), image)
}

// An image after a line that may stand behind it.
pub(crate) fn after(alloc: Global, line: &[u8], image: Vec<u8>) -> Result<Vec<u8>, AllocError>
    ensures { IfOk result (λ made. made.items ≡ after line.now image.items) }
{
    if line.is_empty() {
        return Ok(image);
    }
    applied(alloc, line, &image)
}
