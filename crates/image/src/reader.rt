// What reading an image answers: the reply, and what the sections hold.
ghost use Rattle.std.specs.Prelude.{[], ◌∷◌, ◌++◌, ◌≡◌, ◌≤◌, length};
ghost use Rattle.octets.specs.Bytes.{value, parts};
ghost use Rattle.image.specs.Sections.{place_of};
ghost use Rattle.image.specs.Reading.{content_of, sections_of, start_of, image_reply, flags_in, predicate_of, ffr_in, state_of, blank as blank_state};

use super::sections;
use super::sections::Section;
use predicates::{Flags, Predicate};
use registers::State;
use replies::{Refusal, Reply};
use std::array;

// The sections' reply, and last that of the lent list's room.
#[tactic(auto, unfolding(crate::specs::Reading::image_reply, crate::specs::Sections::or_else))]
pub fn image_reply(image: &[u8], room: usize) -> Reply
    ensures { result ≡ image_reply room image.now }
{
    sections::sections_reply(image)?;
    if room < sections::count_of(sections::start_of(image, Section::Words as usize)) {
        return Err(Refusal::BufferTooSmall);
    }
    Ok(())
}

// The state that a host in C gets beside a refused reading.
#[tactic(auto, unfolding(crate::specs::Reading::blank))]
pub fn blank() -> State
    ensures { result ≡ blank_state }
{
    let none = Predicate::none();
    let flags = Flags {
        n: false,
        z: false,
        c: false,
        v: false,
    };
    State::new(128, 0, false, flags, [0; 31], [none; registers::PREDICATES])
}

fn content_of(image: &[u8], section: Section) -> &[u8]
    ensures { result.now ≡ content_of (start_of (sections_of image.now) (place_of section) image.now) }
{
    octets::after(sections::start_of(image, section as usize), 4)
}

// The state of an image that has no fault.
#[tactic(auto, unfolding(crate::specs::Reading::state_of))]
pub fn state_of(image: &[u8]) -> State
    ensures { result ≡ state_of image.now }
{
    let vl = sections::vector_length(image);
    let settings = octets::after(image, 4);
    let access = octets::byte(settings, 2) == 1;
    let flags = flags_of(content_of(image, Section::Flags));
    let x = numbers(content_of(image, Section::X));
    let size = (vl / 64) as usize;
    let p = predicates_of(content_of(image, Section::P), size, ffr_of(image));
    State::new(vl, octets::byte(settings, 1), access, flags, x, p)
}

#[tactic(auto, unfolding(crate::specs::Reading::flags_in))]
fn flags_of(content: &[u8]) -> Flags
    ensures { result ≡ flags_in content.now }
{
    let is_set = |i| octets::byte(content, i) == 1;
    Flags {
        n: is_set(0),
        z: is_set(1),
        c: is_set(2),
        v: is_set(3),
    }
}

// So many numbers of eight bytes.
fn numbers<const N: usize>(content: &[u8]) -> [u64; N]
    ensures { result ≡ parts value 8 N content.now }
{
    array::from_fn(|i| octets::number_at(content, i * 8, 8))
}

// FFR, which an old image does not have.
#[tactic(auto, unfolding(crate::specs::Reading::ffr_in))]
fn ffr_of(image: &[u8]) -> Predicate
    ensures { result ≡ ffr_in image.now }
{
    if sections::is_old(image) {
        return Predicate::none();
    }
    let size = (sections::vector_length(image) / 64) as usize;
    predicate_of(octets::first(content_of(image, Section::Ffr), size))
}

// P, and FFR after them.
fn predicates_of(content: &[u8], size: usize, ffr: Predicate) -> [Predicate; registers::PREDICATES]
    requires { size ≤ 510 }
    ensures { result ≡ parts predicate_of size 16 content.now ++ (ffr ∷ []) }
{
    array::from_fn(|i| if i < 16 {
        predicate_of(octets::first(octets::after(content, i * size), size))
    } else {
        ffr
    })
}

fn predicate_of(bs: &[u8]) -> Predicate
    ensures { result ≡ predicate_of bs.now }
{
    Predicate { words: numbers(bs) }
}

// Puts a word in each place of the list. By index: bytes past the end read as 0.
pub fn fill(content: &[u8], list: &mut [u32])
    ensures { list.new ≡ parts value 4 (length list.old) content.now }
{
    for (i, word) in list.iter_mut().enumerate() {
        *word = octets::number_at(content, i * 4, 4) as u32;
    }
}
