//! Stories that go on where a growth is refused: what is refused says so and changes nothing, but that the first steps of a
//! settling stand, and made once more it does what it should have done. `bench/refused_stories.sh` runs them with each growth
//! refused in turn.
use crate::given::{name, names, step, steps, world};
use crate::made::{made, ran};
use crate::runs::{MIXED, MIXED_TOLD};
use crate::seen::seen;
use crate::told::{answered, put, settled};
use std::process::Abort;
use sup_model::Step;
use sup_placement::FlatWeigh;
use sup_replica::{Config, Refusal};
use sup_specs::NodeName;
use sup_test_texts::shown;
use sup_world::{Answers, World, WorldFault};

fn new_world(
    rt: &(impl Abort + AllocGlobal),
    names: &[NodeName],
) -> Result<World<FlatWeigh>, WorldFault> {
    World::new(rt.alloc(), names, Config::default(), FlatWeigh)
}

#[test]
fn a_world_refused_for_memory_is_made_when_asked_again(rt: HostRuntime) {
    let names = names(&rt, &["a", "b", "c"]);
    let world = match new_world(&rt, names.as_slice()) {
        Ok(world) => world,
        Err(fault) => {
            assert!(rt; fault == WorldFault::OutOfMemory);
            new_world(&rt, names.as_slice()).expect(&rt, "a world")
        }
    };
    for name in &names {
        let node = world.station(name).and_then(|station| station.node());
        assert!(rt; node.is_some_and(|node| node.boot() == 1));
    }
}

// What is told of the line's step, which is made once more where memory was refused and nothing has changed.
fn sure_text(
    rt: &(impl Abort + AllocGlobal),
    world: &mut World<FlatWeigh>,
    names: &[NodeName],
    line: &str,
) -> String {
    let step = step(rt, line);
    let before = seen(rt, world, names);
    match made(rt, world, &step) {
        Err(Refusal::OutOfMemory) => {
            assert!(rt;
                seen(rt, world, names).as_str() == before.as_str(),
                "{line}"
            );
            answered(rt, &made(rt, world, &step))
        }
        answer => answered(rt, &answer),
    }
}

#[test]
fn a_step_refused_for_memory_changes_nothing_and_is_made_when_asked_again(rt: HostRuntime) {
    let names = names(&rt, &["a", "b"]);
    let mut world = world(&rt, &["a", "b"]);
    let mut told = String::new(rt.alloc());
    for line in MIXED.lines() {
        let text = sure_text(&rt, &mut world, names.as_slice(), line);
        put(&rt, &mut told, text.as_str());
    }
    assert!(rt; told.as_str() == MIXED_TOLD);
}

// How many steps of a run were refused for memory.
fn unmade_count(answers: &Answers) -> usize {
    let refused = answers.as_slice().iter();
    refused
        .filter(|answer| answer.as_ref().err() == Some(&Refusal::OutOfMemory))
        .count()
}

// The answers of the steps in one run, which is made once more where there was no room for them and nothing has changed.
fn sure_run(
    rt: &(impl Abort + AllocGlobal),
    world: &mut World<FlatWeigh>,
    names: &[NodeName],
    steps: &[Step],
) -> Answers {
    let before = seen(rt, world, names);
    match ran(rt, world, steps) {
        Ok(answers) => answers,
        Err(_) => {
            assert!(rt; seen(rt, world, names).as_str() == before.as_str());
            ran(rt, world, steps).expect(rt, "room")
        }
    }
}

// A step that is refused for memory in the midst of a run is as one that isn't there: the others are made.
#[test]
fn a_run_refused_for_memory_makes_no_step_and_is_made_when_asked_again(rt: HostRuntime) {
    let names = names(&rt, &["a", "b"]);
    let mut world = world(&rt, &["a", "b"]);
    let steps = steps(&rt, MIXED);
    let answers = sure_run(&rt, &mut world, names.as_slice(), steps.as_slice());
    assert!(rt; answers.as_slice().len() == steps.len());
    let unmade = unmade_count(&answers);
    assert!(rt; unmade < 2);
    let mut told = String::new(rt.alloc());
    for answer in answers.as_slice() {
        put(&rt, &mut told, answered(&rt, answer).as_str());
    }
    assert!(rt; (unmade == 0) == (told.as_str() == MIXED_TOLD));
}

// A world of three nodes, one of which is a member, and each knows what another one doesn't.
fn unsettled(rt: &(impl Abort + AllocGlobal), names: &[NodeName]) -> World<FlatWeigh> {
    let mut world = world(rt, &["a", "b", "c"]);
    for line in ["join b", "start a web", "start c db"] {
        let _ = sure_text(rt, &mut world, names, line);
    }
    world
}

// Expects what settling tells. Where memory was refused the steps before stand, and it is begun anew.
fn sure_settling(rt: &(impl Abort + AllocGlobal), world: &mut World<FlatWeigh>) {
    match world.settle() {
        Err(refusal) => {
            assert!(rt; refusal == Refusal::OutOfMemory);
            assert!(rt; world.settle().is_ok());
        }
        answer => {
            let text = settled(rt, &answer);
            let wanted = "ok settled 8\n  b start db 1.1\n  b start web 1.2\n";
            assert!(rt; text.as_str() == wanted);
        }
    }
}

fn shows(rt: &(impl Abort + AllocGlobal), world: &World<FlatWeigh>, word: &str, wanted: &str) {
    let at = name(rt, word);
    let node = world.station(&at).and_then(|station| station.node());
    let text = shown(rt.alloc(), &at, node).expect(rt, "room");
    assert!(rt; text.as_str() == wanted, "{word}");
}

#[test]
fn a_settling_refused_for_memory_is_ended_when_asked_again(rt: HostRuntime) {
    let names = names(&rt, &["a", "b", "c"]);
    let mut world = unsettled(&rt, names.as_slice());
    sure_settling(&rt, &mut world);
    shows(
        &rt,
        &world,
        "a",
        "node a boot 1\nmember b (b,1) label=\nchild db (c,1) worker permanent 5000 arg= on b\nchild web (a,1) worker permanent 5000 arg= on b\n",
    );
    shows(
        &rt,
        &world,
        "b",
        "node b boot 1\nmember b (b,1) label=\nchild db (c,1) worker permanent 5000 arg= on b\nchild web (a,1) worker permanent 5000 arg= on b\nkept db 1.1\nkept web 1.2\n",
    );
    shows(
        &rt,
        &world,
        "c",
        "node c boot 1\nmember b (b,1) label=\nchild db (c,1) worker permanent 5000 arg= on b\nchild web (a,1) worker permanent 5000 arg= on b\n",
    );
}
