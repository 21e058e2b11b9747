//! Which version a program is.

ghost use Rattle.std.specs.Prelude.{◌≡◌, ◌<◌, IfSome, length, option_map};
ghost use Rattle.sup_about.specs.Versions.{first_line_feed, is_line_of, is_one_line, line_start, own_line, version_text};

use crate::asked::Program;

/// The line that tells the program's version: what was found beside it where that is a line of this program in this version, else a line
/// that leaves open whether the program is proved.
pub fn version_text(program: Program, found: Option<&[u8]>) -> &[u8]
    ensures { result.now ≡ version_text program (option_map (λ bytes. bytes.now) found.entry) }
{
    match found {
        Some(line) if is_line_of(program, line) => line,
        _ => own_line(program).as_bytes(),
    }
}

// Whether it begins with the program's name and version, and its first line feed is its last byte.
fn is_line_of(program: Program, bytes: &[u8]) -> bool
    ensures { result ≡ is_line_of program bytes.now }
{
    bytes.starts_with(line_start(program).as_bytes()) && is_one_line(bytes)
}

fn is_one_line(bytes: &[u8]) -> bool
    ensures { result ≡ is_one_line bytes.now }
{
    match first_line_feed(bytes) {
        Some(place) => place + 1 == bytes.len(),
        None => false,
    }
}

fn first_line_feed(bytes: &[u8]) -> Option<usize>
    ensures place { result ≡ first_line_feed bytes.now }
    ensures bound { IfSome result (λ place. place < length bytes.now) }
{
    bytes.iter().position(|byte| *byte == b'\n')
}

// How the line of the program begins that whatever built it wrote.
fn line_start(program: Program) -> &'static str
    ensures { result.now ≡ line_start program }
{
    match program {
        Program::Supctl => "supctl 0.9.0, ",
        Program::Supd => "supd 0.9.0, ",
        Program::Supdraw => "supdraw 0.9.0, ",
    }
}

// What the program knows by itself.
fn own_line(program: Program) -> &'static str
    ensures { result.now ≡ own_line program }
{
    match program {
        Program::Supctl =>
            "supctl 0.9.0, not told whether proved: no supctl.version stands beside it\n",
        Program::Supd => "supd 0.9.0, not told whether proved: no supd.version stands beside it\n",
        Program::Supdraw =>
            "supdraw 0.9.0, not told whether proved: no supdraw.version stands beside it\n",
    }
}
