//! Joins the tables of two images, each on a line of standard input, so many times, for a clock outside. Prints how many rows the
//! first one's have in the end. Words: `merges`, `rows`, `looks`, `found` or `copies`, and how often, which is also how many copies are kept.
#![tactic(auto)]

use std::alloc::Global;
use std::env;
use std::io::{self, Error, ErrorKind, Read};
use sup_causal::Lattice;
use sup_specs::{ChildId, ChildSpec, Kind, NodeName, Restart, Shutdown, Text};
use sup_tables::Tables;
use sup_wire::decode_image;

// What is done over and over.
#[derive(Clone, Copy)]
enum Job {
    // A new state of both.
    Merges,
    // One row more, taken in by its delta, and then its removal.
    Rows,
    // Whether the second knows all that the first one knows.
    Looks,
    // The same where the second has an index of its rows, as a node's tables have once a message brought nothing new.
    Found,
    // The first once more, and all copies are kept, so that their memory can be seen.
    Copies,
}

impl Job {
    fn of(word: &str) -> Option<Job> {
        match word {
            "merges" => Some(Job::Merges),
            "rows" => Some(Job::Rows),
            "looks" => Some(Job::Looks),
            "found" => Some(Job::Found),
            "copies" => Some(Job::Copies),
            _ => None,
        }
    }
}

fn invalid() -> Error {
    Error::from(ErrorKind::InvalidData)
}

fn tables_of(alloc: Global, line: Option<&str>) -> io::Result<Tables> {
    let line = line.ok_or(invalid())?;
    let image = decode_image(alloc, line.as_bytes()).map_err(|_| invalid())?;
    Ok(image.state)
}

fn worker(alloc: Global) -> io::Result<(ChildId, ChildSpec)> {
    let id = ChildId::parse(alloc, "extra").map_err(|_| invalid())?;
    let kind = Kind::parse(alloc, "worker").map_err(|_| invalid())?;
    let arg = Text::parse(alloc, "x").map_err(|_| invalid())?;
    let spec = ChildSpec {
        kind,
        arg,
        restart: Restart::Permanent,
        shutdown: Shutdown::Millis(5000),
    };
    Ok((id, spec))
}

// A child comes and goes.
fn turn(alloc: Global, me: NodeName, mine: &mut Tables) -> io::Result<()> {
    let (id, spec) = worker(alloc)?;
    let (added, _) = mine.put_child(me, id, spec).map_err(|_| invalid())?;
    mine.join_from(alloc, &added)?;
    let (id, _) = worker(alloc)?;
    let (removed, _) = mine.drop_child(&id)?;
    mine.join_from(alloc, &removed)?;
    Ok(())
}

fn done(
    alloc: Global,
    job: Job,
    times: u32,
    mine: &mut Tables,
    theirs: &mut Tables,
) -> io::Result<usize> {
    let me = NodeName::parse("a").map_err(|_| invalid())?;
    if matches!(job, Job::Found) {
        theirs.index_rows();
    }
    let mut copies = Vec::new(alloc);
    for _ in 0..times {
        match job {
            Job::Merges => {
                mine.joined(alloc, theirs)?;
            }
            Job::Rows => turn(alloc, me, mine)?,
            Job::Looks | Job::Found => {
                let _covered = mine.leq(theirs);
            }
            Job::Copies => copies.push(mine.try_clone(alloc)?)?,
        }
    }
    Ok(mine.row_count())
}

fn main(rt: HostRuntime) -> io::Result<()> {
    let words: Vec<String> = env::args(&rt)?.skip(1).collect(rt.alloc())?;
    let (job, times) = asked(&words).ok_or(Error::from(ErrorKind::InvalidInput))?;
    let mut text = String::new(rt.alloc());
    rt.stdin().read_to_string(&mut text)?;
    let mut lines = text.lines();
    let mut mine = tables_of(rt.alloc(), lines.next())?;
    let mut theirs = tables_of(rt.alloc(), lines.next())?;
    let rows = done(rt.alloc(), job, times, &mut mine, &mut theirs)?;
    println!(rt; "{rows}")?;
    Ok(())
}

fn asked(words: &[String]) -> Option<(Job, u32)> {
    match words {
        [job, times] => Some((Job::of(job)?, times.parse().ok()?)),
        _ => None,
    }
}
