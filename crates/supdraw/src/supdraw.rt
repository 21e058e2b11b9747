//! What is started here.

ghost use Rattle.std.specs.Prelude.{◌≡◌};
ghost use Rattle.sup_about.specs.declared.asked.Program.TheVariants as programs;
ghost use Rattle.sup_supdraw.specs.Runs.{RunsWithout, RunsWords};

use std::alloc::Global;
use std::io::{self, Read, Write};
use sup_about::{Program, Start};
use sup_jobs::Ended;
use sup_supdraw::run_with;

/// The program `supdraw`. Its streams are left.
#[derive(Drop)]
pub struct Supdraw;

impl<R: Read + Drop, W: Write + Drop, E: Write> Start<R, W, E> for Supdraw {
    type Left = (R, W);

    ghost program = { λ _. programs.Supdraw };

    ghost may_run = { λ _. Unit {0} };

    ghost runs = { λ _ words reader writer before after done. RunsWords R.remaining W.contents E.contents words
        reader done.1.0 writer done.1.1 before after done.0 };

    ghost fails = { λ _ error reader writer before after done. RunsWithout R.remaining W.contents E.contents error
        reader done.1.0 writer done.1.1 before after done.0 };

    ghost rests = { λ _ reader writer left. left ≡ (reader, writer) };

    fn program(&self) -> Program {
        Program::Supdraw
    }

    fn run(
        self,
        alloc: Global,
        words: io::Result<Vec<String>>,
        reader: R,
        writer: W,
        errors: &mut E,
    ) -> (Ended, (R, W)) {
        let mut reader = reader;
        let mut writer = writer;
        let ended = run_with(alloc, words, &mut reader, &mut writer, errors);
        (ended, (reader, writer))
    }

    fn rest(self, reader: R, writer: W) -> (R, W) {
        (reader, writer)
    }
}
