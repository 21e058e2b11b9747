//! A run of the program: what it is given, and what has to come of it.

ghost use Rattle.std.specs.Prelude.{◌≡◌, ◌≢◌, ◌⊎◌, [], IfOk, codes, map, string_bytes};
ghost use Rattle.std.specs.Str.Lines.{lines};
ghost use Rattle.sup_rows.specs.Plays.{CameOfRun};

use crate::outcome::Outcome;
use std::alloc::{AllocError, Global};
use std::fs;
use std::io::{self, ErrorKind};
use std::rt::Files;
use std::sync::Wait;
use std::thread::Threads;
use sup_program::run::USAGE;
use sup_supctl::run::run;

/// What the program is given.
#[derive(Drop)]
pub(crate) struct Given {
    words: String,
    input: Vec<u8>,
}

#[derive(Drop)]
pub(crate) struct Case {
    pub(crate) given: Given,
    pub(crate) wanted: Outcome,
}

impl Case {
    /// Reads the files of the case of this name.
    pub(crate) fn read(rt: &(impl Files + AllocGlobal), name: &str) -> io::Result<Case> {
        Ok(Case {
            given: Given {
                words: read_text(rt, name, "args")?,
                input: read_part(rt, name, "stdin")?,
            },
            wanted: Outcome {
                status: read_text(rt, name, "status")?,
                output: read_part(rt, name, "stdout")?,
                errors: read_part(rt, name, "stderr")?,
            },
        })
    }
}

impl Given {
    /// Runs the program once, and answers what came of it.
    pub(crate) fn play(
        self,
        rt: &(impl Threads + Wait + Sync),
        alloc: Global,
    ) -> io::Result<Outcome>
        ensures { IfOk result (CameOfRun (lines (string_bytes self.words)) self.input.items) }
    {
        let words = words_of(alloc, &self.words)?;
        let mut reader = self.input.as_slice();
        let mut output = Vec::new(alloc);
        let mut errors = Vec::new(alloc);
        let ended = run(
            rt,
            alloc,
            words.as_slice(),
            &mut reader,
            &mut output,
            &mut errors,
        );
        let status = ended.status;
        let (left, given) = (reader.len(), self.input.len());
        Ok(Outcome {
            status: format!(in alloc; "{status}\n")?,
            output,
            errors: told_of(status, left, given, errors)?,
        })
    }
}

// The words of a text, one a line.
fn words_of<'a>(alloc: Global, text: &'a str) -> Result<Vec<&'a str>, AllocError>
    ensures { IfOk result (λ words. map (λ w. w.now) words.items ≡ lines text.now) }
{
    text.lines().collect(alloc)
}

// What a run told. `clap` words why it refuses words: any reason will do, if nothing was read.
fn told_of(status: u8, left: usize, given: usize, mut errors: Vec<u8>) -> io::Result<Vec<u8>>
    ensures { IfOk result (λ told. (told.items ≡ errors.items)
        ⊎ ((status ≡ USAGE) × (left ≡ given) × (errors.items ≢ []) × (told.items ≡ codes "usage\n"))) }
{
    if status == USAGE && left == given && !errors.is_empty() {
        errors.clear();
        errors.extend_from_slice(b"usage\n")?;
    }
    Ok(errors)
}

// A file that isn't there is empty.
fn read_part(rt: &(impl Files + AllocGlobal), name: &str, part: &str) -> io::Result<Vec<u8>> {
    match fs::read(rt, path_of(rt.alloc(), name, part)?) {
        Err(error) if error.kind() == ErrorKind::NotFound => Ok(Vec::new(rt.alloc())),
        read => read,
    }
}

fn read_text(rt: &(impl Files + AllocGlobal), name: &str, part: &str) -> io::Result<String> {
    fs::read_to_string(rt, path_of(rt.alloc(), name, part)?)
}

fn path_of(alloc: Global, name: &str, part: &str) -> io::Result<String> {
    let path = format!(in alloc; "{name}/{part}")?;
    Ok(path)
}
