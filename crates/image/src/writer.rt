// The writing, section by section: each from `at` on, with the place of the next.
ghost use Rattle.std.specs.Prelude.{true, ◌≡◌, ℕ, ◌+◌, ◌*◌, ◌≤◌, List, length};
ghost use Rattle.std.proofs.lemmas.List.Edits.{sets};
ghost use Rattle.octets.specs.Bytes.{le};
ghost use Rattle.registers.specs.Legal.{legal};
ghost use Rattle.image.specs.Sections.{image_length};
ghost use Rattle.image.specs.Image.{section, predicate_bytes, image_of};

use super::sections::SECTIONS;
use predicates::Predicate;
use registers::State;

// What a section is made of: an item whose first bytes an image holds.
trait Item: Copy {
    // How many bytes it has.
    ghost most: { ℕ };

    // The first k of them.
    ghost bytes: { ℕ → Self → List ℕ };

    // Fills a slice with its first bytes.
    fn put(self, slice: &mut [u8])
        requires { length slice.old ≤ most }
        ensures { slice.new ≡ bytes (length slice.old) self };
}

impl Item for u64 {
    ghost most = { 8 };

    ghost bytes = { le };

    fn put(self, slice: &mut [u8]) {
        let n = slice.len();
        slice.copy_from_slice(&self.to_le_bytes()[..n]);
    }
}

impl Item for u32 {
    ghost most = { 4 };

    ghost bytes = { le };

    fn put(self, slice: &mut [u8]) {
        u64::from(self).put(slice);
    }
}

impl Item for Predicate {
    ghost most = { 32 };

    ghost bytes = { predicate_bytes };

    fn put(self, slice: &mut [u8]) {
        // By index: the words and the parts of the slice go in step.
        let n = slice.len();
        for (j, word) in self.words.iter().enumerate() {
            let start = j * 8;
            // A short vector's predicate has no bytes of the later words.
            if n <= start {
                return;
            }
            word.put(&mut slice[start..(start + 8).min(n)]);
        }
    }
}

// How many bytes an image with so many words has.
pub fn image_length(vl: u64, words: usize) -> usize
    requires { (vl ≤ 2048) × (words ≤ 4096) }
    ensures { result ≡ image_length vl words }
{
    let mut length = 4 * words;
    for section in SECTIONS {
        let shape = section.shape(vl);
        length += 4 + shape.lowest * shape.item;
    }
    length
}

// The whole image, from the first byte on.
pub fn put_image(image: &mut [u8], state: State, words: &[u32])
    requires { (legal state ≡ true) × ((length words.now ≤ 4096) × (length (image_of state words.now) ≤ length image.old)) }
    ensures { image.new ≡ sets image.old 0 (image_of state words.now) }
{
    let settings = [
        state.vl / 128,
        u64::from(state.level),
        u64::from(state.access),
    ];
    let x_at = put_section(image, 0, 1, &settings);
    let p_at = put_section(image, x_at, 8, &state.x);
    let size = (state.vl / 64) as usize;
    let ffr_at = put_section(image, p_at, size, &state.p[..16]);
    let flags_at = put_section(image, ffr_at, size, &state.p[16..]);
    let f = state.flags;
    let flags = [
        u64::from(f.n),
        u64::from(f.z),
        u64::from(f.c),
        u64::from(f.v),
    ];
    let words_at = put_section(image, flags_at, 1, &flags);
    put_section(image, words_at, 4, words);
}

// A section: how many items it has, then `item` bytes of each. The image goes with a place: handing out what is left of it needs a clause on its lender.
fn put_section<T: Item>(image: &mut [u8], at: usize, item: usize, items: &[T]) -> usize
    requires { (item ≤ T.most) × (at + (4 + length items.now * item) ≤ length image.old) }
    ensures value { result ≡ at + (4 + length items.now * item) }
    ensures image_after { image.new ≡ sets image.old at (section (T.bytes item) items.now) }
{
    (items.len() as u64).put(&mut image[at..at + 4]);
    let mut next = at + 4;
    for x in items {
        x.put(&mut image[next..next + item]);
        next += item;
    }
    next
}
