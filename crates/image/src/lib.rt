// The image: a register state and words as bytes, read and written.
// The reader answers the first section at fault: its count cut 5, its count wrong 6, its content cut 5, its content wrong 6; then 7 for bytes after the last section, then 8 for a lent list that
// is too short. The writer refuses 4, then 6 for more than 4,096 words, then 8 for a buffer that is too small. A refusal touches neither list nor buffer, and places past what is written stay.
// An old image has no section for FFR: it is read with FFR all false. The writer writes new images only. Reading what was written gives that state and those words; writing what was read gives
// the same bytes for a new image, and for an old one the new image of that state and those words.
#![tactic(auto)]

ghost use Rattle.std.specs.Prelude.{◌≡◌, length};
ghost use Rattle.image.specs.Sections.{largest_image};
ghost use Rattle.image.specs.Reading.{read_of, list_after};
ghost use Rattle.image.specs.Writing.{written_of, buffer_after};

use registers::State;
use replies::Refusal;

mod reader;
pub mod sections;
mod writer;

pub use reader::blank;
use sections::Section;

// The most bytes that an image has: a constant, for the lengths of arrays.
pub const LARGEST: usize = 17207;

// The same, proved to be that.
pub fn largest() -> usize
    ensures { result ≡ largest_image }
{
    LARGEST
}

#[derive(Clone, Copy)]
pub struct Reading {
    pub state: State,
    // How many words were put in the lent list.
    pub count: usize,
}

// The image's state, with its words put in the lent list; a refusal leaves the list as it was.
pub fn read(image: &[u8], words: &mut [u32]) -> Result<Reading, Refusal>
    ensures value { result ≡ read_of (length words.old) image.now }
    ensures words_after { words.new ≡ list_after image.now words.old }
{
    reader::image_reply(image, words.len())?;
    let rest = sections::start_of(image, Section::Words as usize);
    let count = sections::count_of(rest);
    reader::fill(octets::after(rest, 4), &mut words[..count]);
    let state = reader::state_of(image);
    Ok(Reading { state, count })
}

// The image of a state and words at the front of the buffer, and how many bytes it has; a refusal leaves the buffer as it was.
#[tactic(auto, unfolding(crate::specs::Writing::write_reply, crate::specs::Writing::written_of, crate::specs::Writing::buffer_after, crate::specs::Sections::or_else))]
pub fn write(state: State, words: &[u32], image: &mut [u8]) -> Result<usize, Refusal>
    ensures value { result ≡ written_of state words.now (length image.old) }
    ensures image_after { image.new ≡ buffer_after state words.now image.old }
{
    if !state.is_legal() {
        return Err(Refusal::IllegalState);
    }
    if 4096 < words.len() {
        return Err(Refusal::NotAllowed);
    }
    let length = writer::image_length(state.vl, words.len());
    if image.len() < length {
        return Err(Refusal::BufferTooSmall);
    }
    writer::put_image(image, state, words);
    Ok(length)
}
