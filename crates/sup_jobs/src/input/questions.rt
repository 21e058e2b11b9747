//! Questions to a reader, counted.

ghost use Rattle.std.specs.Prelude.{◌≡◌, ◌≢◌, ◌+◌, ◌<◌, ◌↔◌, false, not, IsTrue, IsErrAnd};
ghost use Rattle.std.specs.Io.KnownBytes.{ReadConsumes};
ghost use Rattle.std.specs.Io.{ReadsAtMost};
ghost use Rattle.std.specs.IoError.{error_kind};
ghost use Rattle.sup_jobs.specs.Reading.{is_spent};

use std::io::{self, ErrorKind, Read};
use std::marker::Model;

/// How often a reader may be asked and was, the interrupted questions among them, and whether it failed.
#[derive(Drop)]
pub struct Questions {
    most: u64,
    asked: u64,
    failed: bool,
}

impl Model for Questions {
    ghost use Rattle.sup_jobs.specs.Reading.{AskedReader};

    ghost Value = { AskedReader };

    ghost view = { λ q. record { most = q.most; asked = q.asked; failed = q.failed } };
}

impl Questions {
    /// No question was put yet, and so many may be.
    pub fn at_most(most: u64) -> Questions
        ensures most { result.most ≡ most }
        ensures asked { result.asked ≡ 0 }
        ensures failed { result.failed ≡ false }
    {
        Questions {
            most,
            asked: 0,
            failed: false,
        }
    }

    /// Whether one more may be put: the reader didn't fail, and wasn't asked as often as it may be.
    pub fn are_left(&self) -> bool
        ensures left { result ≡ not (is_spent self.now) }
        ensures countable { IsTrue result → self.now.asked < self.now.most }
        ensures sound { IsTrue result → self.now.failed ≡ false }
    {
        !self.failed && self.asked < self.most
    }

    /// Puts one question to a reader that didn't fail. It has failed then exactly where the answer is an error that is no interruption.
    pub fn ask<R: Read>(&mut self, reader: &mut R, buffer: &mut [u8]) -> io::Result<usize>
        requires countable { self.old.asked < self.old.most }
        requires sound { self.old.failed ≡ false }
        ensures most { self.new.most ≡ self.old.most }
        ensures asked { self.new.asked ≡ self.old.asked + 1 }
        ensures failed { IsTrue self.new.failed
            ↔ IsErrAnd result (λ e. error_kind e ≢ ErrorKind.Interrupted) }
        ensures bound { ReadsAtMost result buffer.new }
        ensures bytes { ReadConsumes (R.remaining reader.old) (R.remaining reader.new) result buffer.new }
    {
        prove!(self.asked < self.most);
        self.asked += 1;
        let answer = reader.read(buffer);
        self.failed = match &answer {
            Ok(_) => false,
            Err(error) => error.kind() != ErrorKind::Interrupted,
        };
        answer
    }
}
