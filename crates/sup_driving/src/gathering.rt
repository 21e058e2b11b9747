//! What drivers and their receivers hand back, once all threads have ended.
ghost use Rattle.std.specs.Prelude.{◌≡◌, All, IsOk, IfOk, IfErr};
ghost use Rattle.std.specs.List.{AllZip};
ghost use Rattle.sup_driving.specs.GatheredResults.{CanMeet, MetEnds, AllMet, CanGather, GathersTeam, IsFaultOfTeam, IsGathered};

use crate::work::{Received, Steered};
use std::alloc::{AllocError, Global};
use sup_crew::Team;
use sup_links::Sent;
use sup_placement::Weigh;
use sup_posts::{Arrived, Driven, ThreadFault, graver, gravest};

// What a driver and its receivers hand back.
pub(crate) type GatheredTeam<W> = Team<
    Result<Steered<W>, ThreadFault>,
    Result<Received<W>, ThreadFault>,
>;

// The ends of a link meet.
fn meet<W: Weigh>(sent: Sent, received: Received<W>) -> Arrived<W>
    requires { CanMeet sent (Ok received) }
    ensures { MetEnds sent (Ok received) result }
{
    let Received { to, seat, mut exit } = received;
    exit.meet(sent);
    Arrived { to, seat }
}

// The ends of all links meet, of which no receiver failed.
fn meet_all<W: Weigh>(
    alloc: Global,
    sent: Vec<Sent>,
    received: Vec<Result<Received<W>, ThreadFault>>,
) -> Result<Vec<Arrived<W>>, AllocError>
    requires meet { AllZip CanMeet sent.items received.items }
    requires well { All IsOk received.items }
    ensures { IfOk result (λ arrived. AllMet sent.items received.items arrived.items) }
{
    let mut arrived = Vec::with_capacity(alloc, received.len())?;
    let mut sent = sent.into_iter();
    for end in received {
        let Some(sent) = sent.next() else {
            unreachable!()
        };
        let Ok(received) = end else { unreachable!() };
        let pass = meet(sent, received);
        arrived.push(pass)?;
    }
    Ok(arrived)
}

// What a driver hands back, with what its receivers did, or the gravest of their faults.
fn gather<W: Weigh>(alloc: Global, done: GatheredTeam<W>) -> Result<Driven<W>, ThreadFault>
    requires { CanGather done }
    ensures gathered { IfOk result (IsGathered done) }
    ensures fault { IfErr result (IsFaultOfTeam done) }
{
    let Team { lead, others } = done;
    let worst = gravest(&others);
    let Steered { seat, sent } = match lead {
        Ok(steered) => steered,
        Err(fault) => return Err(graver(worst, fault)),
    };
    if let Some(fault) = worst {
        return Err(fault);
    }
    let arrived = meet_all(alloc, sent, others)?;
    Ok(Driven { seat, arrived })
}

// What all drivers hand back, in their order.
pub(crate) fn gather_all<W: Weigh>(
    alloc: Global,
    done: Vec<GatheredTeam<W>>,
) -> Result<Vec<Result<Driven<W>, ThreadFault>>, AllocError>
    requires { All CanGather done.items }
    ensures { IfOk result (λ results. AllZip GathersTeam done.items results.items) }
{
    let mut results = Vec::with_capacity(alloc, done.len())?;
    for team in done {
        let result = gather(alloc, team);
        results.push(result)?;
    }
    Ok(results)
}
