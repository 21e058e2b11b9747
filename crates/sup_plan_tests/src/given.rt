//! Plans of the tests. Memory may be refused once in a run, so each call that takes some is tried twice.
use std::process::Abort;
use sup_links::{LinkScript, Verdict};
use sup_plan::{Command, Plan, Route};
use sup_replica::{Act, Config, Event, MessageText};
use sup_specs::{NodeName, Text};

pub(crate) fn name(rt: &impl Abort, text: &str) -> NodeName {
    NodeName::parse(text).expect(rt, "a node's name")
}

/// A plan of these nodes, with no commands and no scripts.
pub(crate) fn plan(rt: &(impl Abort + AllocGlobal), nodes: &[&str]) -> Plan {
    let mut names = Vec::new(rt.alloc());
    for node in nodes {
        add(rt, &mut names, name(rt, node));
    }
    Plan {
        config: Config::default(),
        nodes: names,
        commands: Vec::new(rt.alloc()),
        scripts: Vec::new(rt.alloc()),
    }
}

fn add<T: Drop>(rt: &impl Abort, items: &mut Vec<T>, item: T) {
    if let Err(failed) = items.push(item) {
        let std::alloc::AllocFailed { value } = failed;
        let Ok(()) = items.push(value) else {
            panic!(rt; "no room")
        };
    }
}

/// The plan with a command more.
pub(crate) fn told(rt: &impl Abort, mut plan: Plan, node: &str, act: Act, now: u64) -> Plan {
    let node = name(rt, node);
    add(rt, &mut plan.commands, Command { node, act, now });
    plan
}

/// The plan with a script more.
pub(crate) fn linked(
    rt: &(impl Abort + AllocGlobal),
    mut plan: Plan,
    from: &str,
    to: &str,
    verdicts: &[Verdict],
) -> Plan {
    let script = match verdicts.to_vec(rt.alloc()) {
        Ok(verdicts) => LinkScript(verdicts),
        Err(_) => LinkScript(verdicts.to_vec(rt.alloc()).expect(rt, "room")),
    };
    let (from, to) = (name(rt, from), name(rt, to));
    add(rt, &mut plan.scripts, Route { from, to, script });
    plan
}

pub(crate) fn ship(rt: &impl Abort, to: &str) -> Act {
    Act::Event(Event::Ship(name(rt, to)))
}

pub(crate) fn push(rt: &impl Abort, to: &str) -> Act {
    Act::Event(Event::Push(name(rt, to)))
}

pub(crate) fn leave(rt: &impl Abort, member: &str) -> Act {
    Act::Event(Event::Leave(name(rt, member)))
}

pub(crate) fn drain(rt: &impl Abort, member: &str) -> Act {
    Act::Event(Event::Drain(name(rt, member)))
}

pub(crate) fn join(rt: &(impl Abort + AllocGlobal)) -> Act {
    match Text::parse(rt.alloc(), "") {
        Ok(label) => Act::Event(Event::Join(label)),
        Err(_) => Act::Event(Event::Join(Text::parse(rt.alloc(), "").expect(rt, "an empty text"))),
    }
}

pub(crate) fn deliver(rt: &impl AllocGlobal) -> Act {
    Act::Event(Event::Deliver(MessageText::new(Vec::new(rt.alloc()))))
}
