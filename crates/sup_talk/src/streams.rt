//! A host over a reader and a writer.

ghost use Rattle.std.specs.Prelude.{◌≡◌, true, false, OnOk};
ghost use Rattle.sup_talk.specs.Hosts.{Hears, IsTold, seen_of};

use crate::host::Host;
use crate::line::{LINE_LIMIT, LineFault, Taken, take_line};
use std::alloc::Global;
use std::io::{Read, Write};
use std::marker::Model;
use sup_jobs::{DeviceFault, Questions, put_all};

/// A host whose lines come from a reader, and whose answers go to a writer. It takes no notice of a keeper.
#[derive(Drop)]
pub struct Streams<R: Read + Drop, W: Write + Drop> {
    reader: R,
    writer: W,
    questions: Questions,
    // The writer failed.
    is_deaf: bool,
}

impl<R: Read + Drop, W: Write + Drop> Model for Streams<R, W> {
    ghost use Rattle.std.specs.Prelude.{◌≡◌, ◌||◌};
    ghost use Rattle.sup_talk.specs.Hosts.{Flow};
    ghost use Rattle.sup_jobs.specs.Reading.{is_spent};

    ghost Value = { Flow };

    ghost view = { λ s. record { unread = R.remaining s.reader; written = W.contents s.writer; is_broken = is_spent s.questions || s.is_deaf } };

    // The reader may be asked as often as can be counted.
    ghost invariant = { λ s. s.questions.most ≡ 18446744073709551615 };
}

impl<R: Read + Drop, W: Write + Drop> Streams<R, W> {
    /// A host whose lines come from this reader, and whose answers go to this writer.
    pub fn new(reader: R, writer: W) -> Streams<R, W>
        ensures { result ≡ record { unread = R.remaining reader; written = W.contents writer; is_broken = false } }
    {
        Streams {
            reader,
            writer,
            questions: Questions::at_most(u64::MAX),
            is_deaf: false,
        }
    }

    /// The writer.
    pub fn writer(&self) -> &W
        ensures { W.contents result.now ≡ self.now.written }
    {
        &self.writer
    }
}

impl<K, R: Read + Drop, W: Write + Drop> Host<K> for Streams<R, W> {
    ghost seen = { λ s. seen_of s };

    fn hear(&mut self, alloc: Global, _keeper: &K) -> Result<Taken, LineFault>
        ensures heard { Hears LINE_LIMIT result (seen_of self.old) (seen_of self.new) _keeper.now }
        ensures broken { self.old.is_broken ≡ true → self.new.is_broken ≡ true }
    {
        take_line(alloc, &mut self.reader, &mut self.questions)
    }

    fn tell(&mut self, text: &[u8], _keeper: &K) -> Result<(), DeviceFault>
        ensures told { IsTold result (seen_of self.old) (seen_of self.new) text.now _keeper.now }
        ensures broken { self.old.is_broken ≡ true → self.new.is_broken ≡ true }
        ensures sound { OnOk result (self.new.is_broken ≡ self.old.is_broken) }
    {
        let told = put_all(&mut self.writer, text);
        if told.is_err() {
            self.is_deaf = true;
        }
        told
    }
}
