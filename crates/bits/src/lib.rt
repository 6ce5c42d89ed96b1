// Numbers seen as bits: masks of a word, counts of its bits, and the four element sizes.
// Every function is total and answers a number that its definition in specs/ gives; a count of ones is the processor's own operation.
#![tactic(auto)]

ghost use Rattle.std.specs.Prelude.{◌≡◌, ◌-◌, min};
ghost use Rattle.bits.specs.Bits.{test_bit, number, below, element_bit};
ghost use Rattle.bits.specs.Search.{count, first_from, after_last};
ghost use Rattle.bits.specs.Size.{shift};

// An element's size: 8, 16, 32 or 64 bits of a vector. The numbers are those of the size field of a word.
#[derive(Clone, Copy, PartialEq, Eq, Debug)]
pub enum Size {
    B = 0,
    H = 1,
    S = 2,
    D = 3,
}

impl Size {
    // The size field of a word: an element has 8 << shift bits of a vector, 1 << shift of a predicate.
    pub fn shift(self) -> u64
        ensures { result ≡ shift self }
    {
        self as u64
    }
}

// The lowest bit of each element of a word.
#[tactic(auto, unfolding(crate::specs::Bits::number, crate::specs::Bits::element_bit))]
pub fn element_mask(size: Size) -> u64
    ensures { result ≡ number (element_bit (shift size)) 0 64 }
{
    match size {
        Size::B => u64::MAX,
        Size::H => 0x5555_5555_5555_5555,
        Size::S => 0x1111_1111_1111_1111,
        Size::D => 0x0101_0101_0101_0101,
    }
}

// How far `m` is above `at`, at most 64.
fn room(m: u64, at: u64) -> u64
    ensures { result ≡ min (m - at) 64 }
{
    m.saturating_sub(at).min(64)
}

// The word that starts at bit `at`, with each bit below `m` set.
pub fn low_mask(m: u64, at: u64) -> u64
    ensures { result ≡ number (below m) at 64 }
{
    let n = room(m, at);
    if n == 0 {
        return 0;
    }
    u64::MAX >> (64 - n)
}

// How many bits of a word are set.
pub fn ones(word: u64) -> u64
    ensures { result ≡ count (test_bit word) 64 }
{
    u64::from(word.count_ones())
}

// The lowest bit of a word that is set, or 64.
pub fn lowest_bit(word: u64) -> u64
    ensures { result ≡ first_from (test_bit word) 0 64 }
{
    u64::from(word.trailing_zeros())
}

// One more than the highest bit of a word that is set, or 0.
pub fn bit_length(word: u64) -> u64
    ensures { result ≡ after_last (test_bit word) 64 }
{
    64 - u64::from(word.leading_zeros())
}
