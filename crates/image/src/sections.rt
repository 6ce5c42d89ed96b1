// The sections of an image as data: what is allowed in each, where each begins, and the reply to all.
ghost use Rattle.std.specs.Prelude.{false, ◌≡◌, ◌≤◌, ◌<◌};
ghost use Rattle.image.specs.Sections.{setting, sections, section_at, place_of, shape_of, count_of, is_missing, after as after_section, has_wrong, section_reply, sections_reply, start_of};
ghost use Rattle.image.specs.Reading.{vl_of, sections_of, is_old};

use replies::{Refusal, Reply};

#[derive(Clone, Copy, Debug, PartialEq, Eq)]
pub enum Section {
    Settings,
    X,
    P,
    Ffr,
    Flags,
    Words,
}

// The sections in their order.
pub const SECTIONS: [Section; 6] = [
    Section::Settings,
    Section::X,
    Section::P,
    Section::Ffr,
    Section::Flags,
    Section::Words,
];

// The range of a section's count, the bytes of an item, and whether it may be missing.
#[derive(Clone, Copy, Debug, PartialEq, Eq)]
pub struct Shape {
    pub lowest: usize,
    pub highest: usize,
    pub item: usize,
    pub optional: bool,
}

impl Shape {
    // A section of so many items.
    fn fixed(count: usize, item: usize) -> Shape
        ensures { result ≡ record { lowest = count; highest = count; item = item; optional = false } }
    {
        Shape {
            lowest: count,
            highest: count,
            item,
            optional: false,
        }
    }
}

impl Section {
    #[tactic(auto, unfolding(crate::specs::Sections::sections))]
    pub fn shape(self, vl: u64) -> Shape
        ensures { result ≡ shape_of (section_at (sections vl) (place_of self)) }
    {
        let size = (vl / 64) as usize;
        match self {
            Section::Settings => Shape::fixed(3, 1),
            Section::X => Shape::fixed(31, 8),
            Section::P => Shape::fixed(16, size),
            Section::Ffr => Shape {
                optional: true,
                ..Shape::fixed(1, size)
            },
            Section::Flags => Shape::fixed(4, 1),
            Section::Words => Shape {
                lowest: 0,
                ..Shape::fixed(4096, 4)
            },
        }
    }

    // Whether a byte is allowed at a place of the content.
    #[tactic(auto, unfolding(crate::specs::Sections::sections))]
    pub fn is_allowed(self, vl: u64, place: usize, b: u8) -> bool
        ensures { result ≡ (section_at (sections vl) (place_of self)).allowed place b }
    {
        match self {
            Section::Settings => is_setting(vl, place, b),
            Section::Flags => b <= 1,
            Section::X | Section::P | Section::Ffr | Section::Words => true,
        }
    }

    // Whether it is missing: where its count would stand stands that of the flags.
    fn is_missing(self, vl: u64, rest: &[u8]) -> bool
        ensures { result ≡ is_missing (section_at (sections vl) (place_of self)) rest.now }
    {
        self.shape(vl).optional & (count_of(rest) == 4)
    }

    // What follows it. The length saturates: the largest number lies past the end of each slice.
    fn after(self, vl: u64, rest: &[u8]) -> &[u8]
        ensures { result.now ≡ after_section (section_at (sections vl) (place_of self)) rest.now }
    {
        if self.is_missing(vl, rest) {
            return rest;
        }
        let bytes = count_of(rest).saturating_mul(self.shape(vl).item);
        octets::after(rest, bytes.saturating_add(4))
    }

    // Count cut; no fault if it is missing; count wrong, content cut, content wrong.
    #[tactic(auto, unfolding(crate::specs::Sections::section_reply))]
    fn reply(self, vl: u64, rest: &[u8]) -> Reply
        ensures { result ≡ section_reply (section_at (sections vl) (place_of self)) rest.now }
    {
        if rest.len() < 4 {
            return Err(Refusal::ImageCut);
        }
        if self.is_missing(vl, rest) {
            return Ok(());
        }
        let shape = self.shape(vl);
        let n = count_of(rest);
        if n < shape.lowest || shape.highest < n {
            return Err(Refusal::NotAllowed);
        }
        let bytes = n.saturating_mul(shape.item);
        if rest.len() - 4 < bytes {
            return Err(Refusal::ImageCut);
        }
        if self.has_wrong(vl, octets::after(rest, 4), bytes) {
            return Err(Refusal::NotAllowed);
        }
        Ok(())
    }

    // Whether one of the first n bytes of its content is not allowed.
    fn has_wrong(self, vl: u64, content: &[u8], n: usize) -> bool
        ensures { result ≡ has_wrong (section_at (sections vl) (place_of self)) content.now n }
    {
        (0..n).any(|i| !self.is_allowed(vl, i, octets::byte(content, i)))
    }
}

// VL/128, level, access, a byte each.
#[tactic(auto, unfolding(crate::specs::Sections::setting))]
fn is_setting(vl: u64, place: usize, b: u8) -> bool
    ensures { result ≡ setting vl place b }
{
    match place {
        0 => registers::settings_allowed(128 * u64::from(b), 0),
        1 => registers::settings_allowed(vl, b),
        _ => b <= 1,
    }
}

// The vector length that an image names.
pub fn vector_length(image: &[u8]) -> u64
    ensures value { result ≡ vl_of image.now }
    ensures upper_bound { result ≤ 32640 }
{
    128 * u64::from(octets::byte(octets::after(image, 4), 0))
}

// A section's count: its first four bytes.
pub fn count_of(rest: &[u8]) -> usize
    ensures value { result ≡ count_of rest.now }
    ensures upper_bound { result < 4294967296 }
{
    octets::number_at(rest, 0, 4) as usize
}

// Whether an image has no FFR.
pub fn is_old(image: &[u8]) -> bool
    ensures { result ≡ is_old image.now }
{
    Section::Ffr.is_missing(vector_length(image), start_of(image, Section::Ffr as usize))
}

// The shape of a section by its number; past the last an empty one.
pub fn shape_of(section: usize, vl: u64) -> Shape
    ensures { result ≡ shape_of (section_at (sections vl) section) }
{
    match SECTIONS.get(section) {
        Some(named) => named.shape(vl),
        None => Shape::fixed(0, 0),
    }
}

// Whether a byte is allowed at a place of the content of a section by its number.
pub fn is_allowed(section: usize, vl: u64, place: usize, b: u8) -> bool
    ensures { result ≡ (section_at (sections vl) section).allowed place b }
{
    match SECTIONS.get(section) {
        Some(named) => named.is_allowed(vl, place, b),
        None => true,
    }
}

// What is left of an image where a section begins, by its number.
pub fn start_of(image: &[u8], section: usize) -> &[u8]
    ensures { result.now ≡ start_of (sections_of image.now) section image.now }
{
    let vl = vector_length(image);
    let mut rest = image;
    for i in 0..section {
        rest = match SECTIONS.get(i) {
            Some(passed) => passed.after(vl, rest),
            None => octets::after(rest, 4),
        };
    }
    rest
}

// The first section at fault answers; then bytes after the last section.
pub fn sections_reply(image: &[u8]) -> Reply
    ensures { result ≡ sections_reply (sections_of image.now) image.now }
{
    let vl = vector_length(image);
    let mut rest = image;
    for section in SECTIONS {
        section.reply(vl, rest)?;
        rest = section.after(vl, rest);
    }
    if 0 < rest.len() {
        return Err(Refusal::TrailingBytes);
    }
    Ok(())
}
