//! One line of an input, taken as it comes.

ghost use Rattle.std.specs.Prelude.{◌≡◌, ◌<◌, ◌≤◌, true, IsTrue, IsErr, IsErrOf, OnOk};
ghost use Rattle.sup_jobs.specs.Reading.{is_spent};
ghost use Rattle.sup_talk.specs.Taking.{TakesByte, TakesLine};

use std::alloc::Global;
use std::io::Read;
use sup_jobs::Questions;
use thiserror::Error;

/// At most this many bytes are a line, its line feed aside.
pub const LINE_LIMIT: usize = 67_108_864;

/// That is 64 MiB.
pub fn a_line_has_64_mib_at_most()
    ensures { LINE_LIMIT ≡ 67108864 }
{}

/// What was taken.
#[derive(Debug, Drop)]
pub enum Taken {
    /// A line, without its line feed.
    Line(Vec<u8>),
    /// A line of more than `LINE_LIMIT` bytes, which is gone.
    TooLong,
    /// Nothing: the input has ended. What stood behind the last line feed, a line that nobody ended, is gone.
    End,
}

/// Why no line was taken.
#[derive(Clone, Copy, Debug, PartialEq, Eq, Error)]
pub enum LineFault {
    /// The reader failed, or may be asked no more.
    #[error("the input can't be read")]
    Device,
    /// Memory was refused.
    #[error("out of memory")]
    OutOfMemory,
}

/// The next line. Not one byte behind its line feed is taken.
///
/// # Errors
///
/// - `LineFault::Device` where the reader failed, or no more questions are left. An interrupted reader is asked again.
/// - `LineFault::OutOfMemory`.
///
/// A front of a line may be gone then.
pub fn take_line<R: Read>(
    alloc: Global,
    reader: &mut R,
    questions: &mut Questions,
) -> Result<Taken, LineFault>
    ensures taken { TakesLine LINE_LIMIT result (R.remaining reader.old) (R.remaining reader.new) }
    ensures device { IsErrOf result LineFault.Device → is_spent questions.new ≡ true }
    ensures failed { IsTrue questions.new.failed → IsErrOf result LineFault.Device }
    ensures most { questions.new.most ≡ questions.old.most }
    ensures asked { OnOk result (questions.old.asked < questions.new.asked) }
    ensures counted { questions.old.asked ≤ questions.new.asked }
    // Where no questions are left, none is put.
    ensures spent { is_spent questions.old ≡ true → questions.new ≡ questions.old }
{
    let mut line = Vec::new(alloc);
    let mut is_long = false;
    while questions.are_left() {
        match take_byte(reader, questions) {
            Ok(None) => return Ok(Taken::End),
            Ok(Some(b'\n')) => {
                if is_long {
                    return Ok(Taken::TooLong);
                }
                return Ok(Taken::Line(line));
            }
            Ok(Some(byte)) => {
                if line.len() >= LINE_LIMIT {
                    is_long = true;
                } else if line.push(byte).is_err() {
                    return Err(LineFault::OutOfMemory);
                }
            }
            Err(fault) => return Err(fault),
        }
    }
    Err(LineFault::Device)
}

// The next byte, or none at the end. An interrupted reader is asked again.
fn take_byte<R: Read>(reader: &mut R, questions: &mut Questions) -> Result<Option<u8>, LineFault>
    ensures byte { TakesByte result (R.remaining reader.old) (R.remaining reader.new) }
    ensures most { questions.new.most ≡ questions.old.most }
    ensures asked { OnOk result (questions.old.asked < questions.new.asked) }
    ensures counted { questions.old.asked ≤ questions.new.asked }
    ensures failed { IsTrue questions.new.failed → IsErrOf result LineFault.Device }
    ensures device { IsErr result → is_spent questions.new ≡ true }
{
    let mut byte = [0u8; 1];
    while questions.are_left() {
        match questions.ask(reader, &mut byte) {
            Ok(0) => return Ok(None),
            Ok(_) => return Ok(Some(byte[0])),
            Err(_) => {}
        }
    }
    Err(LineFault::Device)
}
