//! Attempts to write, counted.

ghost use Rattle.std.specs.Prelude.{◌≡◌, ◌≢◌, ◌+◌, ◌<◌, ◌↔◌, ◌⊎◌, true, false, IsTrue, MatchResult};
ghost use Rattle.std.specs.Io.KnownBytes.{WriteAppends};
ghost use Rattle.std.specs.Io.{WritesAtMost};
ghost use Rattle.std.specs.IoError.{error_kind};
ghost use Rattle.sup_jobs.specs.declared.output.attempts.TheConstants.{WRITES};

use std::io::{self, ErrorKind, Write};
use std::marker::Model;

/// A text is written by so many attempts at most.
const WRITES: u64 = u64::MAX;

/// How often a writer was asked, the interrupted attempts among them, and whether it failed.
#[derive(Drop)]
pub struct Attempts {
    made: u64,
    failed: bool,
}

impl Model for Attempts {
    ghost use Rattle.sup_jobs.specs.Tells.{TriedWriter};

    ghost Value = { TriedWriter };

    ghost view = { λ a. record { made = a.made; failed = a.failed } };
}

impl Attempts {
    /// No attempt was made yet.
    pub fn new() -> Attempts
        ensures made { result.made ≡ 0 }
        ensures failed { result.failed ≡ false }
    {
        Attempts {
            made: 0,
            failed: false,
        }
    }

    /// Whether one more may be made: the writer didn't fail, and wasn't asked `WRITES` times.
    pub fn are_left(&self) -> bool
        ensures spent { result ≡ false → (self.now.failed ≡ true) ⊎ (self.now.made ≡ WRITES) }
        ensures left { IsTrue result → self.now.made < WRITES }
        ensures sound { IsTrue result → self.now.failed ≡ false }
    {
        !self.failed && self.made < WRITES
    }

    /// Makes one attempt at a writer that didn't fail. It has failed then exactly where it took nothing, or the answer is an error that is no
    /// interruption.
    pub fn write<W: Write>(&mut self, writer: &mut W, bytes: &[u8]) -> io::Result<usize>
        requires countable { self.old.made < WRITES }
        requires sound { self.old.failed ≡ false }
        ensures made { self.new.made ≡ self.old.made + 1 }
        ensures failed { IsTrue self.new.failed
            ↔ MatchResult result (λ count. count ≡ 0) (λ e. error_kind e ≢ ErrorKind.Interrupted) }
        ensures bound { WritesAtMost result bytes.now }
        ensures bytes { WriteAppends (W.contents writer.old) (W.contents writer.new) result bytes.now }
    {
        self.made += 1;
        let answer = writer.write(bytes);
        self.failed = match &answer {
            Ok(count) => *count == 0,
            Err(error) => error.kind() != ErrorKind::Interrupted,
        };
        answer
    }
}
