//! Values of the tests, told by texts and numbers. These calls promise nothing: a test knows no more than what it sees
//! when it runs. They end it where there is no such value.
use std::process::Abort;
use sup_causal::Dot;
use sup_local_sup::{Effects, Incarnation, SupFault, Supervisor, Wanted};
use sup_specs::{ChildId, ChildSpec, Kind, NodeName, Restart, Shutdown, Text, TextFault};

pub(crate) fn try_id(rt: &impl AllocGlobal, id: &str) -> Result<ChildId, TextFault> {
    ChildId::parse(rt.alloc(), id)
}

pub(crate) fn id(rt: &(impl Abort + AllocGlobal), id: &str) -> ChildId {
    try_id(rt, id).expect(rt, "an id")
}

pub(crate) fn inc(boot: u64, k: u64) -> Incarnation {
    Incarnation { boot, k }
}

// The child under the dot of node a with this counter.
pub(crate) fn try_child(
    rt: &(impl Abort + AllocGlobal),
    name: &str,
    counter: u64,
    restart: Restart,
) -> Result<Wanted, TextFault> {
    Ok(Wanted {
        id: try_id(rt, name)?,
        dot: Dot {
            counter,
            node: NodeName::parse("a").expect(rt, "a node's name"),
        },
        spec: ChildSpec {
            kind: Kind::parse(rt.alloc(), "worker")?,
            arg: Text::parse(rt.alloc(), "")?,
            restart,
            shutdown: Shutdown::Millis(5000),
        },
    })
}

pub(crate) fn child(
    rt: &(impl Abort + AllocGlobal),
    name: &str,
    counter: u64,
    restart: Restart,
) -> Wanted {
    try_child(rt, name, counter, restart).expect(rt, "a child")
}

// A permanent child.
pub(crate) fn permanent(rt: &(impl Abort + AllocGlobal), name: &str, counter: u64) -> Wanted {
    child(rt, name, counter, Restart::Permanent)
}

#[tactic(auto, using(sup_causal::proofs::Rising::one_rises))]
pub(crate) fn keep_one(
    rt: &impl Abort,
    supervisor: &mut Supervisor,
    only: Wanted,
) -> Result<Effects, SupFault> {
    assert!(rt; only.dot.is_counted());
    supervisor.wanted(&[only])
}

#[tactic(auto, using(sup_causal::proofs::Rising::two_rise))]
pub(crate) fn keep_two(
    rt: &impl Abort,
    supervisor: &mut Supervisor,
    first: Wanted,
    second: Wanted,
) -> Result<Effects, SupFault> {
    assert!(rt; first.dot.is_counted() && second.dot.is_counted());
    assert!(rt; first.id.cmp(&second.id).is_lt());
    supervisor.wanted(&[first, second])
}

#[tactic(auto, using(sup_causal::proofs::Rising::three_rise))]
pub(crate) fn keep_three(
    rt: &impl Abort,
    supervisor: &mut Supervisor,
    first: Wanted,
    second: Wanted,
    third: Wanted,
) -> Result<Effects, SupFault> {
    assert!(rt; first.dot.is_counted() && second.dot.is_counted() && third.dot.is_counted());
    assert!(rt; first.id.cmp(&second.id).is_lt() && first.id.cmp(&third.id).is_lt());
    assert!(rt; second.id.cmp(&third.id).is_lt());
    supervisor.wanted(&[first, second, third])
}
