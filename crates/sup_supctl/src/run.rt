//! The program's run, from its words and input to its output and status.

ghost use Rattle.std.specs.Prelude.{◌+◌, map};
ghost use Rattle.sup_command_line.specs.Weighings.{weight_of};
ghost use Rattle.sup_clustering.specs.ClusterRuns.{RunsCluster};
ghost use Rattle.sup_jobs.specs.Ends.{TakesAtMost};
ghost use Rattle.sup_supctl.specs.Runs.{RunsAll};

use std::alloc::Global;
use std::convert::AsStr;
use std::io::{Read, Write};
use std::sync::Wait;
use std::thread::Threads;
use sup_clustering::run_cluster;
use sup_command_line::Weighing;
use sup_jobs::{Ended, LIMIT};
use sup_placement::{FlatWeigh, Sha256Weigh};
use sup_program::run::{Options, Ran, run_plain};

/// Runs the program, and answers its exit status: 0, or 1 where the input is bad, 2 where the words are refused, 3 where the device or
/// memory ended it, or a full history or a closed link of a cluster, and 4 where a cluster isn't certified; and whether the error writer
/// took all that it was told. The words are those after the program's name. In code, though by no clause, threads are made only where the words
/// ask for a cluster, and only there may it wait for one.
pub fn run<T: Threads + Wait + Sync, S: AsStr, R: Read, W: Write, E: Write>(
    rt: &T,
    alloc: Global,
    words: &[S],
    reader: &mut R,
    writer: &mut W,
    errors: &mut E,
) -> Ended
    ensures { RunsAll R.remaining W.contents E.contents (map S.text words.now) reader.old reader.new
        writer.old writer.new errors.old errors.new result }
{
    match run_plain(alloc, words, reader, writer, errors) {
        Ran::Done(ended) => ended,
        Ran::Cluster(options) => run_options(rt, alloc, options, reader, writer, errors),
    }
}

// Runs a cluster, with the weights that are asked for.
fn run_options<T: Threads + Wait + Sync, R: Read, W: Write, E: Write>(
    rt: &T,
    alloc: Global,
    options: Options,
    reader: &mut R,
    writer: &mut W,
    errors: &mut E,
) -> Ended
    ensures clusters { RunsCluster (weight_of options.weigh) options.config (R.remaining reader.old) (R.remaining reader.new)
        (W.contents writer.old) (W.contents writer.new) (E.contents errors.old) (E.contents errors.new) result }
    ensures taken { TakesAtMost (LIMIT + 1) (R.remaining reader.old) (R.remaining reader.new) }
{
    let Options { weigh, config } = options;
    match weigh {
        Weighing::Sha256 => run_cluster(rt, alloc, &Sha256Weigh, config, reader, writer, errors),
        Weighing::Flat => run_cluster(rt, alloc, &FlatWeigh, config, reader, writer, errors),
    }
}
