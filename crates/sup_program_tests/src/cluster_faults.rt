//! What is told of a cluster that ended by a fault, and its status.
use std::process::Abort;
use std::test::Fail;
use sup_certify::CertifyFault;
use sup_cluster_texts::{ClusterFault, finish, of_certify, of_run};
use sup_posts::RunFault;
use sup_specs::NodeName;

// Expects this status of a cluster that ended so, and what it tells.
fn expect_fault(rt: &(impl Abort + AllocGlobal), fault: ClusterFault, status: u8, errors: &[u8]) {
    let mut told = Vec::new(rt.alloc());
    let ended = finish(&mut told, Err(fault));
    assert!(rt; ended.status == status && ended.told.is_ok());
    assert!(rt; told.as_slice() == errors);
}

#[test]
fn a_full_history_and_a_closed_link_are_told_with_status_3(rt: HostRuntime) {
    let full = of_run(RunFault::HistoryFull);
    let closed = of_run(RunFault::LinkClosed);
    expect_fault(&rt, full, 3, b"history full\n");
    expect_fault(&rt, closed, 3, b"link closed\n");
}

#[test]
fn a_run_that_is_not_certified_is_told_with_status_4(rt: HostRuntime) -> Result<(), Fail> {
    let stuck = of_certify(CertifyFault::Stuck);
    expect_fault(&rt, stuck, 4, b"not certified stuck\n");
    let node = NodeName::parse("node-b_2")?;
    let first = of_certify(CertifyFault::Differs { node, place: 1 });
    let last = of_certify(CertifyFault::Differs {
        node,
        place: 1_000_000,
    });
    expect_fault(&rt, first, 4, b"not certified differs node-b_2 1\n");
    expect_fault(&rt, last, 4, b"not certified differs node-b_2 1000000\n");
    Ok(())
}
