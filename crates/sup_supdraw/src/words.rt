//! The words that the program was started with.

ghost use Rattle.std.specs.Prelude.{◌≡◌, drop, IfErr, IfOk};
ghost use Rattle.std.specs.IoError.{error_kind};
ghost use Rattle.std.specs.Vec.Iter.{into_iter_items};

use std::alloc::Global;
use std::env::Args;
use std::io::{self, ErrorKind};

/// The words after the program's name, which is the first of its arguments.
///
/// # Errors
///
/// That of the arguments, or `ErrorKind::OutOfMemory` where memory was refused to the words.
pub fn words_of(alloc: Global, arguments: io::Result<Args>) -> io::Result<Vec<String>>
    ensures words { IfOk arguments (λ given. IfOk result (λ words. words.items ≡ drop 1 (into_iter_items given))) }
    ensures memory { IfOk arguments (λ _. IfErr result (λ error. error_kind error ≡ ErrorKind.OutOfMemory)) }
    ensures error { IfErr arguments (λ error. result ≡ Err error) }
{
    let given = arguments?;
    let words = given.skip(1).collect(alloc)?;
    Ok(words)
}
