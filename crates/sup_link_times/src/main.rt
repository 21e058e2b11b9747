//! Brings messages of 200 bytes over a link to another thread, for a clock outside, and prints how many came. Word: MESSAGES.
#![tactic(auto)]

ghost use Rattle.std.specs.Prelude.{⊤};

use std::alloc::{AllocError, Global};
use std::env;
use std::io::{self, Error, ErrorKind};
use std::sync::Wait;
use std::thread::Threads;
use sup_crew::{Work, run_all};
use sup_links::{LinkIn, LinkOut, LinkScript, link};

// How many messages of the link are on their way at once.
const CAPACITY: usize = 16;

// What a thread does at its end of the link.
#[derive(Drop)]
enum Side {
    Puts(LinkIn, u32),
    Takes(LinkOut),
}

// How threads wait, and where memory comes from.
#[derive(Drop)]
struct Ends<'a, R> {
    rt: &'a R,
    alloc: Global,
}

// A side gives how many messages it put or took.
impl<'a, R: Wait> Work<Side, u32> for Ends<'a, R> {
    ghost takes = { λ work job. ⊤ };

    ghost gives = { λ work job done. ⊤ };

    fn run(&self, job: Side) -> u32 {
        match job {
            Side::Puts(entry, count) => put_all(self.rt, self.alloc, entry, count),
            Side::Takes(exit) => take_all(self.rt, exit),
        }
    }
}

fn put_all<R: Wait>(rt: &R, alloc: Global, mut entry: LinkIn, count: u32) -> u32 {
    for put in 0..count {
        let Ok(text) = vec![in alloc; b'x'; 200] else {
            return put;
        };
        if entry.put(rt, text).is_err() {
            return put;
        }
    }
    let _sent = entry.end(rt);
    count
}

fn take_all<R: Wait>(rt: &R, mut exit: LinkOut) -> u32 {
    let mut taken: u32 = 0;
    for _ in rt.forever() {
        match exit.take(rt) {
            Ok(Some(_)) => taken = taken.saturating_add(1),
            _ => return taken,
        }
    }
    unreachable!()
}

// How many messages were put, and how many came.
fn bring<R: Threads + Wait + Sync>(
    rt: &R,
    alloc: Global,
    count: u32,
) -> Result<Vec<u32>, AllocError> {
    let (entry, exit) = link(alloc, LinkScript(Vec::new(alloc)), CAPACITY)?;
    let mut sides = Vec::new(alloc);
    sides.push(Side::Puts(entry, count))?;
    sides.push(Side::Takes(exit))?;
    run_all(rt, alloc, sides, &Ends { rt, alloc })
}

fn main(rt: HostRuntime) -> io::Result<()> {
    let words: Vec<String> = env::args(&rt)?.skip(1).collect(rt.alloc())?;
    let count = count_of(&words).ok_or(Error::from(ErrorKind::InvalidInput))?;
    for side in bring(&rt, rt.alloc(), count)? {
        println!(rt; "{side}")?;
    }
    Ok(())
}

fn count_of(words: &[String]) -> Option<u32> {
    match words {
        [count] => count.parse().ok(),
        _ => None,
    }
}
