//! Writing whole texts.

ghost use Rattle.std.specs.Prelude.{◌≡◌, false, IsErr};
ghost use Rattle.sup_jobs.specs.Tells.{IsWornOut, Tells};

mod attempts;

use attempts::Attempts;
use std::io::Write;
use thiserror::Error;

/// The writer failed, took nothing, or was interrupted for ever.
#[derive(Clone, Copy, Debug, PartialEq, Eq, Error)]
#[error("the output can't be written")]
pub struct DeviceFault;

/// Writes all of the bytes. A fault leaves a front of them written, and never all.
pub fn put_all<W: Write>(writer: &mut W, bytes: &[u8]) -> Result<(), DeviceFault>
    ensures { Tells result (W.contents writer.old) (W.contents writer.new) bytes.now }
{
    let mut attempts = Attempts::new();
    put_by(writer, bytes, &mut attempts)
}

// Writes by counted attempts, and gives up where no more may be made.
fn put_by<W: Write>(
    writer: &mut W,
    bytes: &[u8],
    attempts: &mut Attempts,
) -> Result<(), DeviceFault>
    requires unmade { attempts.old.made ≡ 0 }
    requires sound { attempts.old.failed ≡ false }
    ensures told { Tells result (W.contents writer.old) (W.contents writer.new) bytes.now }
    ensures device { IsErr result → IsWornOut attempts.new }
{
    let mut done = 0;
    while done < bytes.len() {
        if !attempts.are_left() {
            return Err(DeviceFault);
        }
        match attempts.write(writer, &bytes[done..]) {
            Ok(count) => done += count,
            // An interrupted writer is asked again, one that failed is not.
            Err(_) => {}
        }
    }
    Ok(())
}
