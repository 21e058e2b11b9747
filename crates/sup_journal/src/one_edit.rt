//! What changed between two images, by one edit.
ghost use Rattle.std.specs.Prelude.{IfOk};
ghost use Rattle.sup_journal.specs.Changes.{IsLeastEdit};

use crate::common::{common_front, common_tail};
use crate::edits::put_edit;
use std::alloc::{AllocError, Global};

// The edit that leaves what both begin and end with.
pub(crate) fn one_edit(alloc: Global, old: &[u8], new: &[u8]) -> Result<Vec<u8>, AllocError>
    ensures { IfOk result (λ edits. IsLeastEdit edits.items old.now new.now) }
{
    let tail = common_tail(old, new);
    let (from, to) = (&old[..old.len() - tail], &new[..new.len() - tail]);
    let retained = common_front(from, to);
    let mut edits = Vec::new(alloc);
    put_edit(&mut edits, retained, from.len() - retained, &to[retained..])?;
    Ok(edits)
}
