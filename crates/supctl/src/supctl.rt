//! What is started here.

ghost use Rattle.std.specs.Prelude.{◌≡◌, map, string_bytes};
ghost use Rattle.std.specs.Thread.{IsSync};
ghost use Rattle.sup_about.specs.declared.asked.Program.TheVariants as programs;
ghost use Rattle.sup_supctl.specs.Runs.{RunsAll, RunsWithout};

use std::alloc::Global;
use std::io::{self, Read, Write};
use std::sync::Wait;
use std::thread::Threads;
use sup_about::{Program, Start};
use sup_jobs::Ended;
use sup_supctl::words::run_with;

/// The program `supctl`, with what makes its threads. Its streams are left.
#[derive(Drop)]
pub struct Supctl<'a, T> {
    pub rt: &'a T,
}

impl<T: Threads + Wait + Sync, R: Read + Drop, W: Write + Drop, E: Write> Start<R, W, E>
    for Supctl<'_, T> {
    type Left = (R, W);

    ghost program = { λ _. programs.Supctl };

    ghost may_run = { λ _. IsSync T.row };

    ghost runs = { λ _ words reader writer before after done. RunsAll R.remaining W.contents E.contents (map string_bytes words)
        reader done.1.0 writer done.1.1 before after done.0 };

    ghost fails = { λ _ error reader writer before after done. RunsWithout R.remaining W.contents E.contents error
        reader done.1.0 writer done.1.1 before after done.0 };

    ghost rests = { λ _ reader writer left. left ≡ (reader, writer) };

    fn program(&self) -> Program {
        Program::Supctl
    }

    fn run(
        self,
        alloc: Global,
        words: io::Result<Vec<String>>,
        reader: R,
        writer: W,
        errors: &mut E,
    ) -> (Ended, (R, W)) {
        let mut reader = reader;
        let mut writer = writer;
        let ended = run_with(self.rt, alloc, words, &mut reader, &mut writer, errors);
        (ended, (reader, writer))
    }

    fn rest(self, reader: R, writer: W) -> (R, W) {
        (reader, writer)
    }
}
