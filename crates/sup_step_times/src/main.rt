//! Makes steps at a node over and over, for a clock outside, with no save and no text of an image around them. Prints how many rows
//! the node has in the end. Words: a job, how many members there are, from 1 to 5, how many children are there
//! before, and how often the job is done. The jobs:
//! - `starts`: a child more;
//! - `deletes`: a child more, all of them, and then each is taken out;
//! - `replaces`, `registers`: the first child gets a new specification, or one name more;
//! - `restarts`: the child that was started last ends, with moments so far apart that the intensity allows it. It needs one member.
#![tactic(auto)]

use std::alloc::Global;
use std::env;
use std::io::{self, Error, ErrorKind};
use sup_local_sup::{Effect, Incarnation};
use sup_node::Node;
use sup_placement::Sha256Weigh;
use sup_replica::{Config, Done, Event};
use sup_specs::{ChildId, ChildSpec, ExitReason, Kind, Name, NodeName, Restart, Shutdown, Text};

type Member = Node<Sha256Weigh>;

const MEMBERS: [&str; 5] = ["a", "b", "c", "d", "e"];

// Restarts so far apart that none counts for the next.
const APART: u64 = 10;

// What is done over and over.
#[derive(Clone, Copy)]
enum Job {
    Starts,
    Deletes,
    Replaces,
    Registers,
    Restarts,
}

impl Job {
    fn of(word: &str) -> Option<Job> {
        match word {
            "starts" => Some(Job::Starts),
            "deletes" => Some(Job::Deletes),
            "replaces" => Some(Job::Replaces),
            "registers" => Some(Job::Registers),
            "restarts" => Some(Job::Restarts),
            _ => None,
        }
    }
}

fn invalid() -> Error {
    Error::from(ErrorKind::InvalidData)
}

fn step(node: &mut Member, event: Event, now: u64) -> io::Result<Done> {
    node.step(event, now, &Sha256Weigh).map_err(|_| invalid())
}

fn text(alloc: Global, text: &str) -> io::Result<Text> {
    Text::parse(alloc, text).map_err(|_| invalid())
}

fn child(alloc: Global, number: u32) -> io::Result<ChildId> {
    let id = format!(in alloc; "child{number}")?;
    ChildId::parse(alloc, &id).map_err(|_| invalid())
}

fn worker(alloc: Global) -> io::Result<ChildSpec> {
    Ok(ChildSpec {
        kind: Kind::parse(alloc, "worker").map_err(|_| invalid())?,
        arg: text(alloc, "x")?,
        restart: Restart::Permanent,
        shutdown: Shutdown::Millis(5000),
    })
}

fn member(alloc: Global, name: &str) -> io::Result<Member> {
    let name = NodeName::parse(name).map_err(|_| invalid())?;
    let mut node = Node::fresh(alloc, name, Config::default())?;
    step(&mut node, Event::Join(text(alloc, "")?), 0)?;
    Ok(node)
}

// What another member knows comes to the node.
fn met(alloc: Global, node: &mut Member, name: &str) -> io::Result<()> {
    let mut other = member(alloc, name)?;
    let Done {
        reply: _,
        effects: _,
        out,
    } = step(&mut other, Event::Ship(*node.name()), 0)?;
    let letter = out.ok_or(invalid())?;
    step(node, Event::Deliver(letter.bytes), 0)?;
    Ok(())
}

fn started(alloc: Global, node: &mut Member, number: u32) -> io::Result<()> {
    step(node, Event::Start(child(alloc, number)?, worker(alloc)?), 0)?;
    Ok(())
}

// The node a, which has met the other members, and has started so many children.
fn grown(alloc: Global, members: usize, children: u32) -> io::Result<Member> {
    let mut node = member(alloc, "a")?;
    for name in MEMBERS.iter().take(members).skip(1) {
        met(alloc, &mut node, name)?;
    }
    for number in 0..children {
        started(alloc, &mut node, number)?;
    }
    Ok(node)
}

// Which run has begun, by the last of these effects.
fn begun(done: &Done) -> io::Result<Incarnation> {
    match done.effects.as_slice() {
        [.., Effect::Start { inc, .. }] => Ok(*inc),
        _ => Err(invalid()),
    }
}

fn start_all(alloc: Global, node: &mut Member, first: u32, times: u32) -> io::Result<()> {
    for more in 0..times {
        started(alloc, node, first.saturating_add(more))?;
    }
    Ok(())
}

fn delete_all(alloc: Global, node: &mut Member, first: u32, times: u32) -> io::Result<()> {
    start_all(alloc, node, first, times)?;
    for more in 0..times {
        let id = child(alloc, first.saturating_add(more))?;
        step(node, Event::Delete(id), 0)?;
    }
    Ok(())
}

fn replace_all(alloc: Global, node: &mut Member, times: u32) -> io::Result<()> {
    for _ in 0..times {
        step(node, Event::Replace(child(alloc, 0)?, worker(alloc)?), 0)?;
    }
    Ok(())
}

fn register_all(alloc: Global, node: &mut Member, times: u32) -> io::Result<()> {
    for number in 0..times {
        let name = format!(in alloc; "name{number}")?;
        let name = Name::parse(alloc, &name).map_err(|_| invalid())?;
        step(node, Event::Register(name, child(alloc, 0)?), 0)?;
    }
    Ok(())
}

fn restart_all(alloc: Global, node: &mut Member, number: u32, times: u32) -> io::Result<()> {
    let start = Event::Start(child(alloc, number)?, worker(alloc)?);
    let mut inc = begun(&step(node, start, 0)?)?;
    let mut now: u64 = 0;
    for _ in 0..times {
        now = now.saturating_add(APART);
        let id = child(alloc, number)?;
        let exit = Event::Exit {
            id,
            inc,
            reason: ExitReason::Crash,
        };
        inc = begun(&step(node, exit, now)?)?;
    }
    Ok(())
}

fn done(alloc: Global, job: Job, node: &mut Member, children: u32, times: u32) -> io::Result<()> {
    match job {
        Job::Starts => start_all(alloc, node, children, times),
        Job::Deletes => delete_all(alloc, node, children, times),
        Job::Replaces => replace_all(alloc, node, times),
        Job::Registers => register_all(alloc, node, times),
        Job::Restarts => restart_all(alloc, node, children, times),
    }
}

// What the words ask for.
#[derive(Clone, Copy)]
struct Words {
    job: Job,
    members: usize,
    children: u32,
    times: u32,
}

fn asked(words: &[String]) -> Option<Words> {
    match words {
        [job, members, children, times] => Some(Words {
            job: Job::of(job)?,
            members: members.parse().ok()?,
            children: children.parse().ok()?,
            times: times.parse().ok()?,
        }),
        _ => None,
    }
}

fn main(rt: HostRuntime) -> io::Result<()> {
    let words: Vec<String> = env::args(&rt)?.skip(1).collect(rt.alloc())?;
    let asked = asked(&words).ok_or(Error::from(ErrorKind::InvalidInput))?;
    let mut node = grown(rt.alloc(), asked.members, asked.children)?;
    done(
        rt.alloc(),
        asked.job,
        &mut node,
        asked.children,
        asked.times,
    )?;
    let rows = node.tables().row_count();
    println!(rt; "{rows}")?;
    Ok(())
}
