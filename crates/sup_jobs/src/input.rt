//! The whole input, of at most `LIMIT` bytes.

ghost use Rattle.std.specs.Prelude.{◌≡◌, ℕ, ◌+◌, ◌*◌, ◌<◌, ◌≤◌, List, length, vec_len, vec_items, IfOk, IfSome, true, false, IsTrue, IsErrOf};
ghost use Rattle.sup_jobs.specs.Reading.{ReadsFor, is_spent};

mod questions;

pub use questions::Questions;
use std::alloc::Global;
use std::io::Read;
use thiserror::Error;

/// At most this many bytes are an input.
pub const LIMIT: usize = 1_048_576;

// A reader is asked so often at most: once for each byte that is taken, and as often in vain.
const READS: u64 = 2_097_154;

/// Why there is no input.
#[derive(Clone, Copy, Debug, PartialEq, Eq, Error)]
pub enum InputFault {
    /// It has more than `LIMIT` bytes.
    #[error("the input is too long")]
    TooLong,
    /// The reader failed, or was interrupted too often.
    #[error("the input can't be read")]
    Device,
    /// Memory was refused.
    #[error("out of memory")]
    OutOfMemory,
}

/// All that the reader has. Of a longer input one byte more than `LIMIT` is taken, to tell; where
/// the reader fails or memory is refused, at most `LIMIT` were.
pub fn read_input<R: Read>(alloc: Global, reader: &mut R) -> Result<Vec<u8>, InputFault>
    ensures short { IfOk result (λ bytes. vec_len bytes ≤ LIMIT) }
    ensures whole { IfOk result (λ bytes. IfSome (R.remaining reader.old) (λ all. all ≡ bytes.items)) }
    ensures long { IsErrOf result InputFault.TooLong
        → IfSome (R.remaining reader.old) (λ all. LIMIT < length all) }
    ensures taken { ReadsFor vec_items result (R.remaining reader.old) (R.remaining reader.new) }
{
    let mut questions = Questions::at_most(READS);
    read_by(alloc, reader, &mut questions)
}

// Reads by counted questions, and gives up where no more may be put.
fn read_by<R: Read>(
    alloc: Global,
    reader: &mut R,
    questions: &mut Questions,
) -> Result<Vec<u8>, InputFault>
    requires most { questions.old.most ≡ 2 * (LIMIT + 1) }
    requires unasked { questions.old.asked ≡ 0 }
    requires sound { questions.old.failed ≡ false }
    ensures short { IfOk result (λ bytes. vec_len bytes ≤ LIMIT) }
    ensures whole { IfOk result (λ bytes. IfSome (R.remaining reader.old) (λ all. all ≡ bytes.items)) }
    ensures long { IsErrOf result InputFault.TooLong
        → IfSome (R.remaining reader.old) (λ all. LIMIT < length all) }
    ensures taken { ReadsFor vec_items result (R.remaining reader.old) (R.remaining reader.new) }
    ensures most { questions.new.most ≡ questions.old.most }
    ensures failed { IsTrue questions.new.failed → IsErrOf result InputFault.Device }
    ensures device { IsErrOf result InputFault.Device → is_spent questions.new ≡ true }
{
    let mut bytes = Vec::new(alloc);
    let mut buffer = [0u8; 4096];
    while questions.are_left() {
        let room = LIMIT - bytes.len();
        let wanted = buffer.len().min(room + 1);
        match questions.ask(reader, &mut buffer[..wanted]) {
            Ok(0) => return Ok(bytes),
            Ok(count) if count > room => return Err(InputFault::TooLong),
            Ok(count) => {
                if bytes.extend_from_slice(&buffer[..count]).is_err() {
                    return Err(InputFault::OutOfMemory);
                }
            }
            // An interrupted reader is asked again, one that failed is not.
            Err(_) => {}
        }
    }
    Err(InputFault::Device)
}
