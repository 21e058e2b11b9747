//! Histories that can't be judged.
use crate::given::{histories, plan};
use crate::histories::joined;
use sup_certify::{CertifyFault, certify};
use sup_placement::FlatWeigh;

#[test]
fn histories_of_other_nodes_are_refused(rt: HostRuntime) {
    let both = histories(&rt, ("a", joined(&rt, "a")), ("c", joined(&rt, "c")));
    let fault = certify(rt.alloc(), &plan(&rt, "a", "b"), &both, FlatWeigh).err();
    assert!(rt; fault == Some(CertifyFault::Stuck));
}

#[test]
fn histories_in_another_order_than_the_plans_are_refused(rt: HostRuntime) {
    let both = histories(&rt, ("b", joined(&rt, "b")), ("a", joined(&rt, "a")));
    let fault = certify(rt.alloc(), &plan(&rt, "a", "b"), &both, FlatWeigh).err();
    assert!(rt; fault == Some(CertifyFault::Stuck));
}

#[test]
fn names_that_make_no_world_are_refused(rt: HostRuntime) {
    let both = histories(&rt, ("a", joined(&rt, "a")), ("a", joined(&rt, "a")));
    let fault = certify(rt.alloc(), &plan(&rt, "a", "a"), &both, FlatWeigh).err();
    assert!(rt; fault == Some(CertifyFault::Stuck));
}
