//! How a cluster's end is told.

ghost use Rattle.std.specs.Prelude.{◌≡◌, ◌++◌, Ok, codes};
ghost use Rattle.sup_jobs.specs.Tells.{Tells};
ghost use Rattle.sup_cluster_texts.specs.Faults.{fault_line_at, fault_text, status_at};

use crate::fault::ClusterFault;
use itoa::Buffer;
use std::io::Write;
use sup_jobs::{DeviceFault, Ended, put_all};
use sup_specs::NodeName;

/// Writes the line of a cluster's fault, if it ended by one. Gives the exit status, and whether the line was written.
pub fn finish<E: Write>(errors: &mut E, end: Result<(), ClusterFault>) -> Ended
    ensures status { result.status ≡ status_at end }
    ensures told { Tells result.told (E.contents errors.old) (E.contents errors.new) (fault_line_at end) }
    // The error writer can't fail at a good end, of which nothing is told.
    ensures quiet { result.status ≡ 0 → result.told ≡ Ok tt }
{
    match end {
        Ok(()) => Ended {
            status: 0,
            told: Ok(()),
        },
        Err(fault) => Ended {
            status: fault.status(),
            told: report(errors, &fault),
        },
    }
}

/// Writes a fault's line, which takes no memory.
pub fn report<E: Write>(errors: &mut E, fault: &ClusterFault) -> Result<(), DeviceFault>
    ensures { Tells result (E.contents errors.old) (E.contents errors.new) (fault_text fault.now) }
{
    match fault {
        ClusterFault::Job(fault) => sup_jobs::report(errors, *fault),
        ClusterFault::HistoryFull => put_all(errors, b"history full\n"),
        ClusterFault::LinkClosed => put_all(errors, b"link closed\n"),
        ClusterFault::Stuck => put_all(errors, b"not certified stuck\n"),
        ClusterFault::Differs { node, place } => report_difference(errors, node, *place),
    }
}

// Writes `not certified differs NODE PLACE`.
fn report_difference<E: Write>(
    errors: &mut E,
    node: &NodeName,
    place: u64,
) -> Result<(), DeviceFault>
    ensures { Tells result (E.contents errors.old) (E.contents errors.new)
        (fault_text (ClusterFault.Differs node.now place)) }
{
    let mut digits = Buffer::new();
    report_words(
        errors,
        b"not certified differs ",
        node.as_str().as_bytes(),
        digits.format(place).as_bytes(),
    )
}

// Writes a line of a front and two words.
fn report_words<E: Write>(
    errors: &mut E,
    front: &[u8],
    word: &[u8],
    last: &[u8],
) -> Result<(), DeviceFault>
    ensures { Tells result (E.contents errors.old) (E.contents errors.new)
        (front.now ++ (word.now ++ (codes " " ++ (last.now ++ codes "\n")))) }
{
    put_all(errors, front)?;
    report_pair(errors, word, last)
}

fn report_pair<E: Write>(errors: &mut E, word: &[u8], last: &[u8]) -> Result<(), DeviceFault>
    ensures { Tells result (E.contents errors.old) (E.contents errors.new)
        (word.now ++ (codes " " ++ (last.now ++ codes "\n"))) }
{
    put_all(errors, word)?;
    report_end(errors, b" ", last)
}

fn report_end<E: Write>(errors: &mut E, space: &[u8], last: &[u8]) -> Result<(), DeviceFault>
    ensures { Tells result (E.contents errors.old) (E.contents errors.new)
        (space.now ++ (last.now ++ codes "\n")) }
{
    put_all(errors, space)?;
    put_all(errors, last)?;
    put_all(errors, b"\n")
}
