//! Saves that fail: the step is refused and changes nothing, but that the node's keeper has counted it.
use crate::given::{name, step};
use crate::made::made;
use crate::seen::{failures, seen};
use crate::stage::{plays, world_after};
use std::process::Abort;
use sup_placement::FlatWeigh;
use sup_replica::Refusal;
use sup_world::World;

const READY: &str =
    "nodes a b c\njoin a\nstart a job restart=temporary\nstart a web\nregister a www web\nship a b\ndeliver a 1\nstart b db\nship b a\nstop c\n";

const READY_TOLD: &str =
    "ok (a,1)\nok (a,2)\n  a start job 1.1\nok (a,3)\n  a start web 1.2\nok (a,4)\nok sent\n  sent a 1 to b delta 4 part\nok absorbed\n  sent b 1 to a ack 4\nok (b,1)\nok sent\n  sent b 2 to a delta 2 part\nok stopped\n";

// Each line is a step that saves: what node a is told, what comes to it, and how a child of it ends.
const SAVING: &str =
    "start a x !fail\nreplace a web !fail\ndelete a web !fail\nregister a api web !fail\nunregister a www !fail\nleave a a !fail\nleave a a @9 !fail\nexit a job 1.1 crash !fail\nexit a job 1.1 normal @3 !fail\ndeliver b 2 !fail\n";

fn world_ready(rt: &(impl Abort + AllocGlobal)) -> World<FlatWeigh> {
    world_after(rt, READY, READY_TOLD)
}

// The step of the line is refused, since its save fails.
fn expect_unsaved(rt: &(impl Abort + AllocGlobal), world: &mut World<FlatWeigh>, line: &str) {
    let names = [name(rt, "a"), name(rt, "b"), name(rt, "c")];
    let before = seen(rt, world, &names);
    let refusal = made(rt, world, &step(rt, line)).err();
    assert!(rt; refusal == Some(Refusal::KeepFailed), "{line}");
    assert!(rt;
        seen(rt, world, &names).as_str() == before.as_str(),
        "{line}"
    );
}

#[test]
fn a_failed_save_is_counted_and_changes_nothing_else(rt: HostRuntime) {
    let mut world = world_ready(&rt);
    for line in SAVING.lines() {
        expect_unsaved(&rt, &mut world, line);
    }
    assert!(rt; failures(&rt, &world, &name(&rt, "a")) == 10);
    assert!(rt; failures(&rt, &world, &name(&rt, "b")) == 0);
    assert!(rt; failures(&rt, &world, &name(&rt, "c")) == 0);
}

#[test]
fn a_failed_save_of_another_node_is_its_own(rt: HostRuntime) {
    let mut world = world_ready(&rt);
    expect_unsaved(&rt, &mut world, "join b !fail");
    expect_unsaved(&rt, &mut world, "restart c !fail");
    expect_unsaved(&rt, &mut world, "restart c !fail");
    assert!(rt; failures(&rt, &world, &name(&rt, "a")) == 0);
    assert!(rt; failures(&rt, &world, &name(&rt, "b")) == 1);
    assert!(rt; failures(&rt, &world, &name(&rt, "c")) == 2);
}

// A step that is refused before its save leaves the keeper alone, and so does one that saves nothing.
#[test]
fn a_step_without_a_save_counts_no_failure(rt: HostRuntime) {
    let mut world = world_ready(&rt);
    let lines =
        "start a web !fail\nleave a b !fail\nship a b !fail\npush a b !fail\nexit a web 1.2 crash !fail\nstop a !fail\nstart a x !fail\nrestart b !fail\n";
    for line in lines.lines() {
        let answer = made(&rt, &mut world, &step(&rt, line));
        assert!(rt; answer.err() != Some(Refusal::KeepFailed), "{line}");
    }
    for word in ["a", "b", "c"] {
        assert!(rt; failures(&rt, &world, &name(&rt, word)) == 0);
    }
}

#[test]
fn a_step_that_saves_nothing_goes_through(rt: HostRuntime) {
    plays(
        &rt,
        "nodes a b\njoin a !fail\njoin a\nstart a web\nship a b !fail\npush a b !fail\ndeliver a 1\ndeliver a 1 !fail\ndeliver a 2 !fail\ndeliver b 1 !fail\nexit a web 1.1 crash !fail\nstop b !fail\nrestart b !fail\nrestart b\n",
        "refused 16 KeepFailed\nok (a,1)\nok (a,2)\n  a start web 1.1\nok sent\n  sent a 1 to b delta 2 part\nok sent\n  sent a 2 to b push\nok absorbed\n  sent b 1 to a ack 2\nok known\n  sent b 2 to a ack 2\nok known\nok acked\nok restarted\n  a start web 1.2\nok stopped\nrefused 16 KeepFailed\nok boot 2\n",
    );
}

// Neither a dot, nor an incarnation, nor a moment is taken by a step whose save fails.
#[test]
fn a_failed_save_takes_nothing(rt: HostRuntime) {
    plays(
        &rt,
        "nodes a\njoin a\nstart a web !fail\nstart a web\nexit a web 1.1 crash @10\nexit a web 1.2 crash @15 !fail\nexit a web 1.2 crash @16\nreplace a web arg=x !fail\nreplace a web arg=x\nexit a web 1.4 crash @17 !fail\nexit a web 1.4 crash @17\n",
        "ok (a,1)\nrefused 16 KeepFailed\nok (a,2)\n  a start web 1.1\nok restarted\n  a start web 1.2\nrefused 16 KeepFailed\nok restarted\n  a start web 1.3\nrefused 16 KeepFailed\nok (a,3) removed (a,2)\n  a stop web 1.3\n  a start web 1.4\nrefused 16 KeepFailed\nok gave up removed (a,1)\n",
    );
}

#[test]
fn an_absorbed_delivery_whose_save_fails_sends_nothing(rt: HostRuntime) {
    plays(
        &rt,
        "nodes a b\nstart a x\nship a b\ndeliver a 1 !fail\ndeliver b 1\nship b a\ndeliver a 1\nship b a\n",
        "ok (a,1)\nok sent\n  sent a 1 to b delta 1 part\nrefused 16 KeepFailed\nrefused 13 NoSuchMessage\nrefused 12 UpToDate\nok absorbed\n  sent b 1 to a ack 1\nok sent\n  sent b 2 to a delta 1 part\n",
    );
}

// The bytes are looked at, and the receiver, before anything is saved.
#[test]
fn other_refusals_come_before_that_of_a_save(rt: HostRuntime) {
    plays(
        &rt,
        "nodes a b\nstart a x\nship a b\ndeliver a 1 drop 1 !fail\ndeliver a 1 at a !fail\nstart a x !fail\nstop b\ndeliver a 1 !fail\nrestart a !fail\nstop b !fail\n",
        "ok (a,1)\nok sent\n  sent a 1 to b delta 1 part\nrefused 17 BadMessage\nrefused 18 WrongReceiver\nrefused 4 AlreadyPresent\nok stopped\nrefused 1 Down\nrefused 2 AlreadyUp\nrefused 1 Down\n",
    );
}
