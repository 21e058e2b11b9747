//! Runs of many steps at once: they answer as step after step does.
use crate::given::{name, steps, world};
use crate::made::{made, ran};
use crate::seen::seen;
use crate::told::{answered, put};
use std::process::Abort;
use sup_model::Step;
use sup_placement::FlatWeigh;
use sup_world::{Answers, World};

const REPEATED: &str = "start a x\nship a b\ndeliver a 1\ndeliver a 1\n";

const REPEATED_TOLD: &str =
    "ok (a,1)\nok sent\n  sent a 1 to b delta 1 part\nok absorbed\n  sent b 1 to a ack 1\nok known\n  sent b 2 to a ack 1\n";

/// Steps of all kinds, and some that are refused.
pub(crate) const MIXED: &str =
    "join a\nstart a web\nstart a web\nship a b\ndeliver a 1 drop 1\ndeliver a 1\ndelete b web !fail\ndelete b web\nreplace a web arg=x\nstart zed x\nraw a {}\nship b a\ndeliver b 2\nexit a web 1.2 crash @7\nstop b\npush a b\ndeliver a 3\nrestart b\ndeliver a 3\n";

pub(crate) const MIXED_TOLD: &str =
    "ok (a,1)\nok (a,2)\n  a start web 1.1\nrefused 4 AlreadyPresent\nok sent\n  sent a 1 to b delta 2 part\nrefused 17 BadMessage\nok absorbed\n  sent b 1 to a ack 2\nrefused 16 KeepFailed\nok removed (a,2)\nok (a,3) removed (a,2)\n  a stop web 1.1\n  a start web 1.2\nrefused 3 UnknownNode\nrefused 17 BadMessage\nok sent\n  sent b 2 to a delta 2 part\nok known\n  sent a 2 to b ack 2\nok restarted\n  a start web 1.3\nok stopped\nok sent\n  sent a 3 to b push\nrefused 1 Down\nok boot 2\nok absorbed\n";

// What is told of the answers.
fn told(rt: &(impl Abort + AllocGlobal), answers: &Answers) -> String {
    let mut text = String::new(rt.alloc());
    for answer in answers.as_slice() {
        put(rt, &mut text, answered(rt, answer).as_str());
    }
    text
}

// What is told where each step is made by itself.
fn told_stepwise(
    rt: &(impl Abort + AllocGlobal),
    world: &mut World<FlatWeigh>,
    steps: &[Step],
) -> String {
    let mut text = String::new(rt.alloc());
    for step in steps {
        let answer = made(rt, world, step);
        put(rt, &mut text, answered(rt, &answer).as_str());
    }
    text
}

// The steps in one run, and in another world one after another, tell what is wanted and end alike.
fn expect_same(rt: &(impl Abort + AllocGlobal), lines: &str, wanted: &str) {
    let steps = steps(rt, lines);
    let names = [name(rt, "a"), name(rt, "b")];
    let mut running = world(rt, &["a", "b"]);
    let answers = ran(rt, &mut running, steps.as_slice()).expect(rt, "room");
    assert!(rt; answers.as_slice().len() == steps.len());
    assert!(rt; told(rt, &answers).as_str() == wanted);
    let mut stepping = world(rt, &["a", "b"]);
    assert!(rt; told_stepwise(rt, &mut stepping, steps.as_slice()).as_str() == wanted);
    assert!(rt; seen(rt, &running, &names).as_str() == seen(rt, &stepping, &names).as_str());
}

#[test]
fn repeated_deliveries_run_as_single_steps_do(rt: HostRuntime) {
    expect_same(&rt, REPEATED, REPEATED_TOLD);
}

#[test]
fn a_run_goes_on_behind_a_refusal(rt: HostRuntime) {
    expect_same(&rt, MIXED, MIXED_TOLD);
}

#[test]
fn a_run_of_no_steps_changes_nothing(rt: HostRuntime) {
    expect_same(&rt, "", "");
}
