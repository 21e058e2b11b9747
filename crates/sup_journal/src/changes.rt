//! What changed between two images, by several edits. Nothing is claimed of them: a record is tried before it is told.
ghost use Rattle.std.specs.Prelude.{◌≡◌, ◌≤◌, ◌<◌, ◌+◌, length, true};

use crate::common::{common_front, common_tail};
use crate::edits::{HEAD, put_edit};
use crate::slices::behind;
use std::alloc::{AllocError, Global};

// So many bytes alike end a change.
const ALIKE: usize = 16;
// So far a change is looked for.
const REACH: usize = 4096;
// More edits than these would be looked for longer than the image is written.
const MOST_EDITS: usize = 4096;

/// Edits that make the new image of the old one, as far as can be seen; none where they'd be longer than half of the new one.
pub(crate) fn edits_between(
    alloc: Global,
    old: &[u8],
    new: &[u8],
) -> Result<Option<Vec<u8>>, AllocError> {
    let tail = common_tail(old, new);
    let mut from = &old[..old.len() - tail];
    let mut to = &new[..new.len() - tail];
    let mut edits = Vec::new(alloc);
    for _ in 0..MOST_EDITS {
        let retained = common_front(from, to);
        let (left, right) = (&from[retained..], &to[retained..]);
        if left.is_empty() && right.is_empty() {
            return Ok(Some(edits));
        }
        let (deleted, inserted) = change(left, right);
        put_edit(&mut edits, retained, deleted, &right[..inserted])?;
        if edits.len() > new.len() / 2 {
            return Ok(None);
        }
        from = &left[deleted..];
        to = &right[inserted..];
    }
    Ok(None)
}

// How many bytes go and come by one edit: gaps with so few bytes alike between them that an edit's head is longer are one.
fn change(left: &[u8], right: &[u8]) -> (usize, usize)
    ensures deleted { result.0 ≤ length left.now }
    ensures inserted { result.1 ≤ length right.now }
{
    let (mut deleted, mut inserted) = gap(left, right);
    for _ in 0..MOST_EDITS {
        let (from, to) = (&left[deleted..], &right[inserted..]);
        let alike = common_front(from, to);
        let (from, to) = (&from[alike..], &to[alike..]);
        if alike >= HEAD || (from.is_empty() && to.is_empty()) {
            break;
        }
        let (more_deleted, more_inserted) = gap(from, to);
        deleted += alike + more_deleted;
        inserted += alike + more_inserted;
    }
    (deleted, inserted)
}

// How many bytes go and come before both go on alike.
fn gap(left: &[u8], right: &[u8]) -> (usize, usize)
    ensures deleted { result.0 ≤ length left.now }
    ensures inserted { result.1 ≤ length right.now }
{
    for at in 1..left.len().max(right.len()).min(REACH) {
        let later_left = behind(left, at as u64);
        let later_right = behind(right, at as u64);
        if are_alike(left, later_right) {
            return (0, at);
        }
        if are_alike(later_left, right) {
            return (at, 0);
        }
        if are_alike(later_left, later_right) {
            return (at, at);
        }
        if are_alike(later_left, behind(right, at as u64 + 1)) {
            return (at, at + 1);
        }
        if are_alike(behind(left, at as u64 + 1), later_right) {
            return (at + 1, at);
        }
    }
    (left.len(), right.len())
}

// Whether both begin with the same bytes, so many as end a change.
fn are_alike(left: &[u8], right: &[u8]) -> bool
    ensures left { result ≡ true → 0 < length left.now }
    ensures right { result ≡ true → 0 < length right.now }
{
    left.len() >= ALIKE && right.len() >= ALIKE && left[..ALIKE] == right[..ALIKE]
}
