//! Passes for the threads of a run.
ghost use Rattle.std.specs.Prelude.{◌≡◌, IfOk, All, map, length};
ghost use Rattle.std.specs.List.{AllZip};
ghost use Rattle.sup_posts.specs.Jobs.{IsSeatAt, IsSeatOf};
ghost use Rattle.sup_posts.specs.Drives.{IsFresh, others_of, places};
ghost use Rattle.sup_run_ends.specs.Passes.{AreCutOff};
ghost use Rattle.sup_run_ends.specs.Steps.{IsCutFor};

use std::alloc::{AllocError, Global};
use sup_placement::Weigh;
use sup_posts::{Seat, SharedNode};

/// A pass, and the place of the node of whose gate it is.
pub(crate) type Dealt<W> = (usize, Seat<W>);

// Cuts a pass off this one for the driver at a place, which needs none of its own node's gate.
fn cut_one<W: Weigh>(
    post: &SharedNode<W>,
    at: usize,
    to: usize,
    seat: Seat<W>,
    row: &mut Vec<Dealt<W>>,
) -> Result<Seat<W>, AllocError>
    requires { IsSeatOf post.now seat }
    ensures of { IfOk result (IsSeatOf post.now) }
    ensures cut { IfOk result (λ kept. IsCutFor post.now at to seat kept row.old.items row.new.items) }
{
    if to == at {
        return Ok(seat);
    }
    let (first, second) = post.gate.split(seat);
    row.push((to, second))?;
    Ok(first)
}

// Cuts a pass off that of each gate but the one at this place. Gives the passes that are kept, and those that were cut off, with their
// places.
pub(crate) fn cut_row<W: Weigh>(
    alloc: Global,
    at: usize,
    posts: &[SharedNode<W>],
    seats: Vec<Seat<W>>,
) -> Result<(Vec<Seat<W>>, Vec<Dealt<W>>), AllocError>
    requires { AllZip IsSeatOf posts.now seats.items }
    ensures kept { IfOk result (λ r. AllZip IsSeatOf posts.now r.0.items) }
    ensures row { IfOk result (λ r. All (λ d. IsSeatAt posts.now d.0 d.1 × IsFresh d.1) r.1.items) }
    ensures ends { IfOk result (λ r. map (λ d. d.0) r.1.items ≡ others_of at (places (length posts.now))) }
    ensures cut { IfOk result (λ r. AreCutOff seats.items r.0.items r.1.items) }
{
    let mut kept = Vec::new(alloc);
    let mut row = Vec::new(alloc);
    let mut seats = seats.into_iter();
    for to in 0..posts.len() {
        let Some(seat) = seats.next() else {
            unreachable!()
        };
        let rest = cut_one(&posts[to], at, to, seat, &mut row)?;
        kept.push(rest)?;
    }
    Ok((kept, row))
}
