//! What the threads of a driver and its receivers are given.
ghost use Rattle.std.specs.Prelude.{IfOk, All};
ghost use Rattle.std.specs.List.{AllZip, AllByRecursion};
ghost use Rattle.sup_posts.specs.Jobs.{IsLane, MayTakeDrive};
ghost use Rattle.sup_driving.specs.Wires.{IsUnused};
ghost use Rattle.sup_driving.specs.Teams.{IsWireOf, IsReceiveOf, IsReadyToReceive, IsTeamOf, IsReady};

use crate::wires::Wire;
use std::alloc::{AllocError, Global};
use sup_crew::Team;
use sup_links::LinkOut;
use sup_placement::Weigh;
use sup_plan::Command;
use sup_posts::{Drive, Lane, Seat, SharedNode};

/// The place of a driver's node, its commands and its ends of the links.
#[derive(Drop)]
pub(crate) struct Steer<W: Weigh> {
    pub(crate) at: usize,
    pub(crate) seat: Seat<W>,
    pub(crate) commands: Vec<Command>,
    pub(crate) wires: Vec<Wire>,
}

/// The place of a receiver's node, and the link's other end.
#[derive(Drop)]
pub(crate) struct Receive<W: Weigh> {
    pub(crate) to: usize,
    pub(crate) seat: Seat<W>,
    pub(crate) exit: LinkOut,
}

// The two ends of a link, the first for the driver.
fn split_lane<W: Weigh>(posts: &[SharedNode<W>], lane: Lane<W>) -> (Wire, Receive<W>)
    requires { IsLane posts.now lane }
    ensures wire { IsWireOf posts.now lane result.0 }
    ensures unused { IsUnused result.0 }
    ensures receive { IsReceiveOf lane result.1 }
    ensures ready { IsReadyToReceive posts.now result.1 }
{
    let Lane {
        to,
        seat,
        entry,
        exit,
    } = lane;
    let wire = Wire {
        to: posts[to].name,
        entry,
    };
    (wire, Receive { to, seat, exit })
}

// The ends of all these links, in their order.
fn split_lanes<W: Weigh>(
    alloc: Global,
    posts: &[SharedNode<W>],
    lanes: Vec<Lane<W>>,
) -> Result<(Vec<Wire>, Vec<Receive<W>>), AllocError>
    requires { All (IsLane posts.now) lanes.items }
    ensures wires { IfOk result (λ r. AllZip (IsWireOf posts.now) lanes.items r.0.items) }
    ensures unused { IfOk result (λ r. AllByRecursion IsUnused r.0.items) }
    ensures receives { IfOk result (λ r. AllZip IsReceiveOf lanes.items r.1.items) }
    ensures ready { IfOk result (λ r. All (IsReadyToReceive posts.now) r.1.items) }
{
    let mut wires = Vec::with_capacity(alloc, lanes.len())?;
    let mut receives = Vec::with_capacity(alloc, lanes.len())?;
    for lane in lanes {
        let (wire, receive) = split_lane(posts, lane);
        wires.push(wire)?;
        receives.push(receive)?;
    }
    Ok((wires, receives))
}

// A driver and its receivers.
fn split<W: Weigh>(
    alloc: Global,
    posts: &[SharedNode<W>],
    drive: Drive<W>,
) -> Result<Team<Steer<W>, Receive<W>>, AllocError>
    requires { MayTakeDrive posts.now drive }
    ensures team { IfOk result (IsTeamOf posts.now drive) }
    ensures ready { IfOk result (IsReady posts.now) }
{
    let Drive {
        at,
        seat,
        commands,
        lanes,
    } = drive;
    let (wires, others) = split_lanes(alloc, posts, lanes)?;
    let lead = Steer {
        at,
        seat,
        commands,
        wires,
    };
    Ok(Team { lead, others })
}

// All drivers and their receivers.
pub(crate) fn split_all<W: Weigh>(
    alloc: Global,
    posts: &[SharedNode<W>],
    drives: Vec<Drive<W>>,
) -> Result<Vec<Team<Steer<W>, Receive<W>>>, AllocError>
    requires { All (MayTakeDrive posts.now) drives.items }
    ensures teams { IfOk result (λ teams. AllZip (IsTeamOf posts.now) drives.items teams.items) }
    ensures ready { IfOk result (λ teams. All (IsReady posts.now) teams.items) }
{
    let mut teams = Vec::with_capacity(alloc, drives.len())?;
    for drive in drives {
        let team = split(alloc, posts, drive)?;
        teams.push(team)?;
    }
    Ok(teams)
}
