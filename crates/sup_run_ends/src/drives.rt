//! What the drivers of a run are given.
ghost use Rattle.std.specs.Prelude.{◌≡◌, length, All, Some, map, slice_get, IfOk};
ghost use Rattle.std.specs.List.{AllZip};
ghost use Rattle.sup_posts.specs.Jobs.{IsSeatAt, IsLane, IsSeatOf};
ghost use Rattle.sup_posts.specs.declared.shared_node.SharedNode.{SharedNode};
ghost use Rattle.sup_plan.specs.Plans.{IsPlan};
ghost use Rattle.sup_posts.specs.Drives.{IsFresh, IsLaneTo, IsDriveOf, LeadsToItsNode, places, HaveWhole, dealt_by, dealt_in, of_lane};
ghost use Rattle.sup_run_ends.specs.Passes.{IsFirst};
ghost use Rattle.sup_run_ends.specs.Steps.{IsRowOf};

use crate::dealing::{Dealt, cut_row};
use std::alloc::{AllocError, Global};
use sup_links::link;
use sup_placement::Weigh;
use sup_plan::Plan;
use sup_posts::{Drive, Lane, Seat, SharedNode};
use sup_specs::NodeName;

// How many messages of a link may be on their way at once.
const CAPACITY: usize = 16;

// The link from a node to the one at a place, with a pass of that one's gate.
fn make_lane<W: Weigh>(
    alloc: Global,
    plan: &Plan,
    from: &NodeName,
    to: usize,
    posts: &[SharedNode<W>],
    seat: Seat<W>,
) -> Result<Lane<W>, AllocError>
    requires { IsSeatAt posts.now to seat }
    ensures lane { IfOk result (IsLane posts.now) }
    ensures passes { IfOk result (λ lane. of_lane lane ≡ (to, seat)) }
    ensures to { IfOk result (LeadsToItsNode plan.now.scripts.items from.now posts.now) }
{
    let script = plan.script_between(alloc, from, &posts[to].name)?;
    let (entry, exit) = link(alloc, script, CAPACITY)?;
    Ok(Lane {
        to,
        seat,
        entry,
        exit,
    })
}

// The links from a node to those at these places, with these passes.
fn make_lanes<W: Weigh>(
    alloc: Global,
    plan: &Plan,
    from: &NodeName,
    posts: &[SharedNode<W>],
    row: Vec<Dealt<W>>,
) -> Result<Vec<Lane<W>>, AllocError>
    requires { All (λ d. IsSeatAt posts.now d.0 d.1) row.items }
    ensures lanes { IfOk result (λ lanes. All (IsLane posts.now) lanes.items) }
    ensures passes { IfOk result (λ lanes. map of_lane lanes.items ≡ row.items) }
    ensures to { IfOk result (λ lanes. All (LeadsToItsNode plan.now.scripts.items from.now posts.now) lanes.items) }
{
    let mut lanes = Vec::new(alloc);
    for dealt in row {
        let (to, seat) = dealt;
        let lane = make_lane(alloc, plan, from, to, posts, seat)?;
        lanes.push(lane)?;
    }
    Ok(lanes)
}

// What is left of each gate's first pass, and the links of each driver, in the order of the nodes, with the passes that were cut off these.
fn deal<W: Weigh>(
    alloc: Global,
    plan: &Plan,
    posts: &[SharedNode<W>],
    seats: Vec<Seat<W>>,
) -> Result<(Vec<Seat<W>>, Vec<Vec<Lane<W>>>), AllocError>
    requires seats { AllZip IsSeatOf posts.now seats.items }
    requires first { All IsFirst seats.items }
    ensures seats { IfOk result (λ r. AllZip IsSeatOf posts.now r.0.items) }
    ensures fresh { IfOk result (λ r. All IsFresh r.0.items) }
    ensures rows { IfOk result (λ r. AllZip (λ at lanes. IsRowOf plan.now posts.now at lanes.items) (places (length posts.now)) r.1.items) }
    ensures whole { IfOk result (λ r. HaveWhole r.0.items (dealt_in r.1.items)) }
{
    let mut seats = seats;
    let mut rows = Vec::new(alloc);
    for at in 0..posts.len() {
        let (kept, row) = cut_row(alloc, at, posts, seats)?;
        seats = kept;
        let lanes = make_lanes(alloc, plan, &posts[at].name, posts, row)?;
        rows.push(lanes)?;
    }
    Ok((seats, rows))
}

// What the driver of the node at a place is given.
fn make_drive<W: Weigh>(
    alloc: Global,
    plan: &Plan,
    at: usize,
    posts: &[SharedNode<W>],
    seat: Seat<W>,
    lanes: Vec<Lane<W>>,
) -> Result<Drive<W>, AllocError>
    requires seat { IsSeatAt posts.now at seat }
    requires fresh { IsFresh seat }
    requires lanes { IsRowOf plan.now posts.now at lanes.items }
    ensures drive { IfOk result (λ drive. (post : SharedNode W _) → slice_get posts.now at ≡ Some post → IsDriveOf plan.now posts.now post drive) }
    ensures at { IfOk result (λ drive. drive.at ≡ at) }
    ensures seat { IfOk result (λ drive. drive.seat ≡ seat) }
    ensures lanes { IfOk result (λ drive. drive.lanes ≡ lanes) }
{
    let commands = plan.commands_of(alloc, &posts[at].name)?;
    Ok(Drive {
        at,
        seat,
        commands,
        lanes,
    })
}

/// What the drivers of a plan that can be run are given, in the order of their nodes, where `seats` are the first passes of these nodes'
/// gates. The passes of a gate that are among it have all of the gate together.
///
/// # Errors
///
/// `AllocError` where memory was refused.
pub fn make_drives<W: Weigh>(
    alloc: Global,
    plan: &Plan,
    posts: &[SharedNode<W>],
    seats: Vec<Seat<W>>,
) -> Result<Vec<Drive<W>>, AllocError>
    requires runs { IsPlan plan.now }
    requires seats { AllZip IsSeatOf posts.now seats.items }
    requires first { All IsFirst seats.items }
    ensures drives { IfOk result (λ drives. AllZip (IsDriveOf plan.now posts.now) posts.now drives.items) }
    ensures places { IfOk result (λ drives. map (λ d. d.at) drives.items ≡ places (length posts.now)) }
    ensures whole { IfOk result (λ drives. HaveWhole (map (λ d. d.seat) drives.items) (dealt_by drives.items)) }
{
    let (seats, rows) = deal(alloc, plan, posts, seats)?;
    let mut seats = seats.into_iter();
    let mut rows = rows.into_iter();
    let mut drives = Vec::new(alloc);
    for at in 0..posts.len() {
        let Some(seat) = seats.next() else {
            unreachable!()
        };
        let Some(lanes) = rows.next() else {
            unreachable!()
        };
        let drive = make_drive(alloc, plan, at, posts, seat, lanes)?;
        drives.push(drive)?;
    }
    Ok(drives)
}
