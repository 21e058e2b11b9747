//! Changes of what is wanted under an id or two. These calls promise nothing: they end the test where what they are given
//! is no change.
use std::process::Abort;
use sup_local_sup::{Change, Effects, SupFault, Supervisor, Wanted};
use sup_specs::{ChildId, Plain};

// This child is wanted.
#[tactic(auto, using(crate::proofs::FewChanges::one_change))]
pub(crate) fn put_one(
    rt: &(impl Abort + AllocGlobal),
    supervisor: &mut Supervisor,
    now: Wanted,
) -> Result<Effects, SupFault> {
    assert!(rt; now.dot.is_counted());
    let id = now.id.try_clone(rt.alloc())?;
    supervisor.changed(&[Change { id, now: Some(now) }])
}

// This child isn't wanted.
#[tactic(auto, using(crate::proofs::FewChanges::one_change))]
pub(crate) fn drop_one(supervisor: &mut Supervisor, id: ChildId) -> Result<Effects, SupFault> {
    supervisor.changed(&[Change { id, now: None }])
}

// These two aren't wanted.
#[tactic(auto, using(crate::proofs::FewChanges::two_changes))]
pub(crate) fn drop_two(
    rt: &impl Abort,
    supervisor: &mut Supervisor,
    first: ChildId,
    second: ChildId,
) -> Result<Effects, SupFault> {
    assert!(rt; first.cmp(&second).is_lt());
    let first = Change {
        id: first,
        now: None,
    };
    let second = Change {
        id: second,
        now: None,
    };
    supervisor.changed(&[first, second])
}

// The first isn't wanted, and the second is.
#[tactic(auto, using(crate::proofs::FewChanges::two_changes))]
pub(crate) fn drop_and_put(
    rt: &(impl Abort + AllocGlobal),
    supervisor: &mut Supervisor,
    first: ChildId,
    now: Wanted,
) -> Result<Effects, SupFault> {
    assert!(rt; now.dot.is_counted() && first.cmp(&now.id).is_lt());
    let second = now.id.try_clone(rt.alloc())?;
    let first = Change {
        id: first,
        now: None,
    };
    let second = Change {
        id: second,
        now: Some(now),
    };
    supervisor.changed(&[first, second])
}
