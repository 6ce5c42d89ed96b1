// Reads an image from standard input, steps its words until one is refused, and writes the lines to standard output.
#![tactic(auto)]

use std::io;
use std::io::{Read, Write};

// One byte more than the largest image has tells a longer input. The text has at most 86,026 bytes.
fn main(rt: HostRuntime) -> io::Result<()> {
    let mut image = [0u8; image::LARGEST + 1];
    let mut input = rt.reader().take(image.len() as u64);
    let length = io::copy(&mut input, &mut &mut image[..])?;
    let mut words = [0u32; 4096];
    let mut out = [0u8; 86026];
    let read = octets::first(&image, length as usize);
    let written = transcript::transcript(read, &mut words, &mut out);
    io::writer(&rt).write_all(&out[..written])
}
