//! What tests see of a supervisor.
use std::process::Abort;
use sup_local_sup::{Effect, Effects, Entry, Incarnation, Supervisor, Verdict};
use sup_specs::ChildId;

/// An effect: whether it is `start` or `stop`, the child's id, and the boot and the number of the run.
pub(crate) type Seen<'a> = (&'a str, &'a str, u64, u64);

/// A child that is kept: its id, and the boot and the number of its run.
pub(crate) type Kept<'a> = (&'a str, u64, u64);

fn seen(effect: &Effect) -> Seen<'_> {
    match effect {
        Effect::Stop { id, inc } => ("stop", id.as_str(), inc.boot, inc.k),
        Effect::Start { id, inc, spec: _ } => ("start", id.as_str(), inc.boot, inc.k),
    }
}

// Expects these effects, in this order.
pub(crate) fn expect_effects(rt: &impl Abort, effects: &Effects, wanted: &[Seen<'_>]) {
    let effects = effects.as_slice();
    assert!(rt; effects.len() == wanted.len(), "how many effects");
    for (effect, wanted) in effects.iter().zip(wanted) {
        assert!(rt; seen(effect) == *wanted, "an effect");
    }
}

// Expects the child to begin this run.
pub(crate) fn expect_restarted(rt: &impl Abort, verdict: &Verdict, wanted: Seen<'_>) {
    match verdict {
        Verdict::Restarted(effect) => assert!(rt; seen(effect) == wanted, "the restart"),
        _ => rt.abort(),
    }
}

// Expects a give-up with these effects.
pub(crate) fn expect_gave_up(rt: &impl Abort, verdict: &Verdict, wanted: &[Seen<'_>]) {
    match verdict {
        Verdict::GaveUp(effects) => expect_effects(rt, effects, wanted),
        _ => rt.abort(),
    }
}

// Expects the end of the entry under the dot of node a with this counter.
pub(crate) fn expect_finished(rt: &impl Abort, verdict: &Verdict, counter: u64) {
    match verdict {
        Verdict::Finished(dot) => {
            assert!(rt;
                dot.node.as_str() == "a" && dot.counter == counter,
                "the dot"
            )
        }
        _ => rt.abort(),
    }
}

// Expects that no such run is kept.
pub(crate) fn expect_stale(rt: &impl Abort, verdict: &Verdict) {
    match verdict {
        Verdict::Stale => {}
        _ => rt.abort(),
    }
}

fn expect_entry(rt: &impl Abort, id: &ChildId, entry: &Entry, wanted: Kept<'_>) {
    let (name, boot, k) = wanted;
    assert!(rt; id.as_str() == name, "a kept child");
    assert!(rt; entry.inc == Incarnation { boot, k }, "a kept run");
}

// Expects these children to be kept, in this order.
pub(crate) fn expect_kept(rt: &impl Abort, supervisor: &Supervisor, wanted: &[Kept<'_>]) {
    let kept = supervisor.kept();
    assert!(rt; kept.len() == wanted.len(), "how many are kept");
    for ((id, entry), wanted) in kept.iter().zip(wanted) {
        expect_entry(rt, id, entry, *wanted);
    }
}
