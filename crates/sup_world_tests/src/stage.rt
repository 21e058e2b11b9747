//! A world that plays the lines of a script, one after another. Where memory is refused a call is made once more, but for a settling.
use crate::given::{script, world_of};
use crate::made::made;
use crate::told::{answered, put, settled};
use std::process::Abort;
use sup_lines::Line;
use sup_model::Step;
use sup_placement::FlatWeigh;
use sup_replica::Refusal;
use sup_specs::{Name, NodeName};
use sup_test_texts::{led, shown};
use sup_world::{Answer, World};

#[derive(Drop)]
struct Stage {
    world: World<FlatWeigh>,
    told: String,
}

/// Expects that the world of the script's nodes plays its lines, and tells what is wanted.
pub(crate) fn plays(rt: &(impl Abort + AllocGlobal), text: &str, wanted: &str) {
    let Stage { told, .. } = played(rt, text);
    assert!(rt; told.as_str() == wanted, "{told}");
}

/// The world after the lines of the script, which told what is wanted.
pub(crate) fn world_after(
    rt: &(impl Abort + AllocGlobal),
    text: &str,
    wanted: &str,
) -> World<FlatWeigh> {
    let Stage { world, told } = played(rt, text);
    assert!(rt; told.as_str() == wanted, "{told}");
    world
}

fn played(rt: &(impl Abort + AllocGlobal), text: &str) -> Stage {
    let script = script(rt, text);
    let mut stage = Stage {
        world: world_of(rt, script.nodes.as_slice()),
        told: String::new(rt.alloc()),
    };
    stage.plays_lines(rt, script.lines.as_slice());
    stage
}

impl Stage {
    fn plays_lines(&mut self, rt: &(impl Abort + AllocGlobal), lines: &[Line]) {
        for line in lines {
            self.plays_line(rt, line);
        }
    }

    fn plays_line(&mut self, rt: &(impl Abort + AllocGlobal), line: &Line) {
        let text = match line {
            Line::Step(step) => self.steps(rt, step),
            Line::Settle => self.settles(rt),
            Line::Show(node) => self.shows(rt, node),
            Line::Where { node, name } => self.leads(rt, node, name),
            Line::Inspect(_) | Line::Image(_) | Line::Message { .. } => {
                panic!(rt; "no line of these stories")
            }
        };
        put(rt, &mut self.told, text.as_str());
    }

    fn steps(&mut self, rt: &(impl Abort + AllocGlobal), step: &Step) -> String {
        let answer = self.tries_twice(rt, step);
        answered(rt, &answer)
    }

    fn tries_twice(&mut self, rt: &impl Abort, step: &Step) -> Result<Answer, Refusal> {
        match made(rt, &mut self.world, step) {
            Err(Refusal::OutOfMemory) => made(rt, &mut self.world, step),
            answer => answer,
        }
    }

    fn settles(&mut self, rt: &(impl Abort + AllocGlobal)) -> String {
        let answer = self.world.settle();
        settled(rt, &answer)
    }

    fn shows(&self, rt: &(impl Abort + AllocGlobal), node: &NodeName) -> String {
        match self.world.station(node) {
            Some(station) => shown(rt.alloc(), node, station.node()).expect(rt, "room"),
            None => panic!(rt; "no such node"),
        }
    }

    fn leads(&self, rt: &(impl Abort + AllocGlobal), node: &NodeName, name: &Name) -> String {
        match self.world.station(node) {
            Some(station) => led(rt.alloc(), node, station.node(), name).expect(rt, "room"),
            None => panic!(rt; "no such node"),
        }
    }
}
