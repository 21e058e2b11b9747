//! A program, what stands beside it, where its words are put, and where it writes.

ghost use Rattle.std.specs.Prelude.{◌≡◌, IfSome, Some, option_map};

use std::alloc::{AllocError, Global};
use std::env::Args;
use std::io::{self, ErrorKind, Write};
use sup_about::{Beside, Program, Room, Start};
use sup_jobs::Ended;

/// A line that stands beside a program, or nothing.
#[derive(Clone, Copy)]
pub struct Note<'a> {
    pub line: Option<&'a [u8]>,
}

impl Beside for Note<'_> {
    ghost may_be = { λ note found. IfSome found (λ bytes. option_map (λ line. line.now) note.line ≡ Some bytes) };

    fn find(self, alloc: Global) -> Option<Vec<u8>> {
        Vec::from_slice(alloc, self.line?).ok()
    }
}

/// A writer that takes so many bytes and then none.
#[derive(Drop)]
pub struct Full {
    pub bytes: Vec<u8>,
    pub room: usize,
}

impl Write for Full {
    fn write(&mut self, buf: &[u8]) -> io::Result<usize> {
        let left = self.room.saturating_sub(self.bytes.len());
        let count = buf.len().min(left);
        if count == 0 {
            return Err(io::Error::from(ErrorKind::BrokenPipe));
        }
        self.bytes.extend_from_slice(&buf[..count])?;
        Ok(count)
    }

    fn flush(&mut self) -> io::Result<()> {
        Ok(())
    }
}

/// What a program did.
#[derive(Drop)]
pub enum Did {
    /// It ran with these words.
    Ran(Vec<String>),
    /// It was told that its words can't be had, for an error of this kind.
    Failed(ErrorKind),
    /// It didn't run.
    Rested,
}

/// A program that tells with what it was run.
#[derive(Drop)]
pub struct Telling {
    pub program: Program,
}

impl<W: Write + Drop, E: Write> Start<(), W, E> for Telling {
    type Left = (Did, W);

    ghost program = { λ telling. telling.program };

    ghost may_run = { λ _. Unit {0} };

    ghost runs = { λ _ _ _ _ _ _ _. Unit {0} };

    ghost fails = { λ _ _ _ _ _ _ _. Unit {0} };

    ghost rests = { λ _ _ writer left. left.1 ≡ writer };

    fn program(&self) -> Program {
        self.program
    }

    fn run(
        self,
        _alloc: Global,
        words: io::Result<Vec<String>>,
        _reader: (),
        writer: W,
        _errors: &mut E,
    ) -> (Ended, (Did, W)) {
        let did = match words {
            Ok(words) => Did::Ran(words),
            Err(error) => Did::Failed(error.kind()),
        };
        let ended = Ended {
            status: 7,
            told: Ok(()),
        };
        (ended, (did, writer))
    }

    fn rest(self, _reader: (), writer: W) -> (Did, W) {
        (Did::Rested, writer)
    }
}

/// No memory for words.
#[derive(Drop)]
pub struct NoRoom;

impl Room for NoRoom {
    ghost may_lack = { λ _. Unit {0} };

    fn words_of(self, _arguments: Args) -> Result<Vec<String>, AllocError> {
        Err(AllocError)
    }
}
