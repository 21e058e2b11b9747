//! A reader that is interrupted at every other question, one of long lines, a writer that takes so
//! much and no more, and an answerer that says what it heard.

use std::alloc::{AllocError, Global};
use std::io::{self, ErrorKind, Read, Write};
use sup_talk::Answerer;

/// Gives its bytes one by one, is interrupted before each, and fails behind the last if it's told
/// to.
#[derive(Drop)]
pub struct Stutter {
    pub bytes: Vec<u8>,
    pub at: usize,
    pub asked: u64,
    pub fails: bool,
}

impl Read for Stutter {
    fn read(&mut self, buf: &mut [u8]) -> io::Result<usize> {
        self.asked = self.asked.wrapping_add(1);
        if self.asked % 2 == 1 {
            return Err(io::Error::from(ErrorKind::Interrupted));
        }
        if buf.is_empty() {
            return Ok(0);
        }
        match self.bytes.get(self.at) {
            Some(byte) => {
                buf[0] = *byte;
                self.at = self.at.wrapping_add(1);
                Ok(1)
            }
            None if self.fails => Err(io::Error::from(ErrorKind::Other)),
            None => Ok(0),
        }
    }
}

/// Gives a byte so often, and then a line feed, and so on for so many lines.
#[derive(Drop)]
pub struct Long {
    pub length: usize,
    pub lines: u64,
    pub at: usize,
}

impl Read for Long {
    fn read(&mut self, buf: &mut [u8]) -> io::Result<usize> {
        if buf.is_empty() || self.lines == 0 {
            return Ok(0);
        }
        if self.at < self.length {
            let room = self.length.saturating_sub(self.at);
            let count = buf.len().min(room);
            for byte in &mut buf[..count] {
                *byte = b'a';
            }
            self.at = self.at.saturating_add(count);
            return Ok(count);
        }
        buf[0] = b'\n';
        self.at = 0;
        self.lines = self.lines.saturating_sub(1);
        Ok(1)
    }
}

/// Takes so many bytes, and fails then.
#[derive(Drop)]
pub struct Full {
    pub bytes: Vec<u8>,
    pub room: usize,
}

impl Write for Full {
    fn write(&mut self, buf: &[u8]) -> io::Result<usize> {
        let left = self.room.saturating_sub(self.bytes.len());
        let count = buf.len().min(left);
        if count == 0 {
            return Err(io::Error::from(ErrorKind::BrokenPipe));
        }
        self.bytes.extend_from_slice(&buf[..count])?;
        Ok(count)
    }

    fn flush(&mut self) -> io::Result<()> {
        Ok(())
    }
}

/// Says the line, `much` for one of 100 bytes or more, `long` for one that was too long, and a mark
/// behind it. It is over behind the line `end`.
#[derive(Drop)]
pub struct Echo {
    pub alloc: Global,
    pub is_over: bool,
}

impl Answerer<bool> for Echo {
    ghost over = { λ e. e.is_over };

    ghost answers = { λ _ _ _ _. Unit {0} };

    ghost lacks = { λ _ _ _. Unit {0} };

    ghost shows = { λ _ _. Unit {0} };

    fn answer(&mut self, line: Option<&[u8]>) -> Result<Vec<u8>, AllocError> {
        match line {
            Some(line) => {
                if line == b"end".as_slice() {
                    self.is_over = true;
                }
                let mut text = if line.len() < 100 {
                    line.to_vec(self.alloc)?
                } else {
                    b"much".to_vec(self.alloc)?
                };
                text.push(b'!')?;
                Ok(text)
            }
            None => b"long!".to_vec(self.alloc),
        }
    }

    fn is_over(&self) -> bool {
        self.is_over
    }

    fn keeper(&self) -> &bool {
        &self.is_over
    }
}
