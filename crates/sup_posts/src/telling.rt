//! Which of several faults is told: the gravest.
ghost use Rattle.std.specs.Prelude.{◌≡◌, ◌≤◌, ◌⊎◌, All, Some, IsOk, IfSome, IfNone};
ghost use Rattle.sup_posts.specs.Faults.{IsGravest, gravity};

use crate::thread_fault::ThreadFault;

// How grave a fault is.
fn gravity(fault: ThreadFault) -> u8
    ensures { result ≡ gravity fault }
{
    match fault {
        ThreadFault::OutOfMemory => 3,
        ThreadFault::HistoryFull => 2,
        ThreadFault::LinkClosed => 1,
    }
}

/// The graver of two faults, or the one where there is no other.
pub fn graver(worst: Option<ThreadFault>, fault: ThreadFault) -> ThreadFault
    ensures either { (result ≡ fault) ⊎ (worst ≡ Some result) }
    ensures above { gravity fault ≤ gravity result }
    ensures worst { IfSome worst (λ w. gravity w ≤ gravity result) }
{
    match worst {
        Some(worst) if gravity(fault) <= gravity(worst) => worst,
        _ => fault,
    }
}

/// The gravest fault among results, if there is one.
pub fn gravest<T>(results: &[Result<T, ThreadFault>]) -> Option<ThreadFault>
    ensures some { IfSome result (IsGravest results.now) }
    ensures none { IfNone result (All IsOk results.now) }
{
    let mut worst = None;
    for result in results {
        match result {
            Ok(_) => {}
            Err(fault) => worst = Some(graver(worst, *fault)),
        }
    }
    worst
}
