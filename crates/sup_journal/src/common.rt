//! What two texts have in common.
ghost use Rattle.std.specs.Prelude.{◌≡◌, ◌≤◌, ◌+◌, ◌↔◌, IsTrue, length, slice_range};
ghost use Rattle.sup_journal.specs.Changes.{IsCommonFront, IsCommonTail};

// So many bytes are compared at once.
const CHUNK: usize = 64;

// With how many bytes both begin.
pub(crate) fn common_front(left: &[u8], right: &[u8]) -> usize
    ensures { IsCommonFront result left.now right.now }
{
    let most = left.len().min(right.len());
    let mut count = 0;
    while most - count >= CHUNK && are_same(left, count, right, count, CHUNK) {
        count += CHUNK;
    }
    while count < most && are_same(left, count, right, count, 1) {
        count += 1;
    }
    count
}

// With how many bytes both end.
pub(crate) fn common_tail(left: &[u8], right: &[u8]) -> usize
    ensures { IsCommonTail result left.now right.now }
{
    let (end, other_end) = (left.len(), right.len());
    let most = end.min(other_end);
    let mut count = 0;
    while most - count >= CHUNK
        && are_same(
            left,
            end - count - CHUNK,
            right,
            other_end - count - CHUNK,
            CHUNK,
        )
    {
        count += CHUNK;
    }
    while count < most && are_same(left, end - count - 1, right, other_end - count - 1, 1) {
        count += 1;
    }
    count
}

// Whether so many bytes are the same, from these places on.
fn are_same(left: &[u8], from: usize, right: &[u8], other_from: usize, count: usize) -> bool
    requires left { from + count ≤ length left.now }
    requires right { other_from + count ≤ length right.now }
    ensures { IsTrue result
        ↔ (slice_range left.now from (from + count) ≡ slice_range right.now other_from (other_from + count)) }
{
    left[from..from + count] == right[other_from..other_from + count]
}
