//! What a program is that can be started.

ghost use Rattle.std.specs.Prelude.{◌≡◌, List, IfErr, IfOk};
ghost use Rattle.std.specs.declared.alloc.Global.{Global};
ghost use Rattle.std.specs.declared.io.Error.{Error};
ghost use Rattle.std.specs.declared.string.String.{String};

use crate::asked::Program;
use std::alloc::Global;
use std::io::{self, Write};
use sup_jobs::Ended;

/// A program with all that it has but its streams. It is used up where it runs, and where it answers what it is asked about itself.
pub trait Start<R, W, E: Write>: Drop {
    ghost use Rattle.sup_about.specs.declared.asked.Program.{Program};
    ghost use Rattle.sup_jobs.specs.declared.fault.Ended.{Ended};

    /// What is left of it and of its streams.
    type Left: Drop;

    // Which program it is.
    ghost program: { Self → Program };

    // What a run asks for: `IsSync` of the types that it shares with its threads, since a method knows nothing of the bounds `Sync` of its
    // `impl`.
    ghost may_run: { Self → Type 0 };

    // What a run does by these words: with its reader, its writer, and its error writer before and after.
    ghost runs: { Self → List (String Global) → R → W → E → E → (Ended × Self.Left) → Type 0 };

    // What it does where its words can't be had.
    ghost fails: { Self → Error → R → W → E → E → (Ended × Self.Left) → Type 0 };

    // What is left where it doesn't run.
    ghost rests: { Self → R → W → Self.Left → Type 0 };

    /// Which program it is.
    fn program(&self) -> Program
        ensures { result ≡ program self.now };

    /// Runs with the words behind its name, or tells why they can't be had.
    fn run(
        self,
        alloc: Global,
        words: io::Result<Vec<String>>,
        reader: R,
        writer: W,
        errors: &mut E,
    ) -> (Ended, Self::Left)
        requires { may_run self }
        ensures runs { IfOk words (λ given. runs self given.items reader writer errors.old errors.new result) }
        ensures fails { IfErr words (λ error. fails self error reader writer errors.old errors.new result) };

    /// Doesn't run.
    fn rest(self, reader: R, writer: W) -> Self::Left
        ensures { rests self reader writer result };
}
