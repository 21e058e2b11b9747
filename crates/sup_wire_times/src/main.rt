//! Reads the image on standard input and prints its text, after it was written and read so many times, for a clock
//! outside. Words: WRITES READS.
#![tactic(auto)]

use std::alloc::Global;
use std::env;
use std::io::{self, Error, ErrorKind, Read, Write};
use sup_wire::{Image, decode_image, encode_image_after};

fn main(rt: HostRuntime) -> io::Result<()> {
    let words: Vec<String> = env::args(&rt)?.skip(1).collect(rt.alloc())?;
    let (writes, reads) = counts_of(&words).ok_or(Error::from(ErrorKind::InvalidInput))?;
    let mut given = Vec::new(rt.alloc());
    rt.stdin().read_to_end(&mut given)?;
    let image = read_times(rt.alloc(), &given, reads)?;
    let text = written_times(rt.alloc(), &image, writes)?;
    rt.stdout().write_all(&text)
}

fn counts_of(words: &[String]) -> Option<(u32, u32)> {
    match words {
        [writes, reads] => Some((writes.parse().ok()?, reads.parse().ok()?)),
        _ => None,
    }
}

// The image, read once and so many times more.
fn read_times(alloc: Global, text: &[u8], times: u32) -> io::Result<Image> {
    for _ in 0..times {
        image_of(alloc, text)?;
    }
    image_of(alloc, text)
}

fn image_of(alloc: Global, text: &[u8]) -> io::Result<Image> {
    decode_image(alloc, text).map_err(|_| Error::from(ErrorKind::InvalidData))
}

// The image's text, written once and so many times more, always into the same buffer.
fn written_times(alloc: Global, image: &Image, times: u32) -> io::Result<Vec<u8>> {
    let mut text = Vec::new(alloc);
    for _ in 0..times {
        text = encode_image_after(text, image)?;
        text.clear();
    }
    let text = encode_image_after(text, image)?;
    Ok(text)
}
