//! A host that notes what was kept when it was told, and when it was awaited.

ghost use Rattle.std.specs.Prelude.{None, true};

use std::alloc::{AllocError, Global};
use sup_disk::ImageKeeper;
use sup_jobs::{DeviceFault, Questions};
use sup_talk::{Host, LineFault, Taken, take_line};

/// A text that a host was told, and what its keeper kept then.
#[derive(Drop)]
pub struct Note {
    pub text: Vec<u8>,
    pub kept: Vec<u8>,
}

/// Says its lines, and notes what it's told, and what its keeper keeps each time that its next line
/// is awaited, as long as there is memory for that.
#[derive(Drop)]
pub struct Noting<'a> {
    pub alloc: Global,
    pub lines: &'a [u8],
    pub questions: Questions,
    pub notes: Vec<Note>,
    pub awaited: Vec<Vec<u8>>,
    pub is_short: bool,
}

impl Noting<'_> {
    fn note(&mut self, text: &[u8], kept: &[u8]) -> Result<(), AllocError> {
        let note = Note {
            text: text.to_vec(self.alloc)?,
            kept: kept.to_vec(self.alloc)?,
        };
        self.notes.push(note)?;
        Ok(())
    }

    fn note_awaited(&mut self, kept: &[u8]) -> Result<(), AllocError> {
        let kept = kept.to_vec(self.alloc)?;
        self.awaited.push(kept)?;
        Ok(())
    }
}

impl<K: ImageKeeper> Host<K> for Noting<'_> {
    ghost seen = { λ _. record { unread = None; written = None; past = None; is_broken = true } };

    fn hear(&mut self, alloc: Global, keeper: &K) -> Result<Taken, LineFault> {
        if self.note_awaited(keeper.stored()).is_err() {
            self.is_short = true;
        }
        take_line(alloc, &mut self.lines, &mut self.questions)
    }

    fn tell(&mut self, text: &[u8], keeper: &K) -> Result<(), DeviceFault> {
        if self.note(text, keeper.stored()).is_err() {
            self.is_short = true;
        }
        Ok(())
    }
}
