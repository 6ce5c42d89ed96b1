// How many elements of a predicate are true, at each of the four sizes: the counts that a state keeps beside its P registers.
// All four are worked out in one pass, as one number of four fields of sixteen bits: the bits of four words are added in fields that grow from two bits to eight, and the processor's count of ones is not asked for.
#![tactic(auto)]

ghost use Rattle.std.specs.Prelude.{true, false, ◌≡◌, ◌+◌, ◌*◌, ◌/◌, ◌%◌, ◌^◌, ◌<◌};
ghost use Rattle.std.specs.Int.Bits.{bit_and};
ghost use Rattle.tally.specs.Counts.{no_counts, counts_of, count_at, true_elements};
ghost use Rattle.tally.specs.Tally.{packed, packed_of, counts_in};
ghost use Rattle.tally.specs.Planes.{lows, low_sum, byte_sum, fields, planes_of, planes_in, sums_of};

use bits::Size;
use predicates::Predicate;

// How many elements are true at each size.
#[repr(C)]
#[derive(Clone, Copy, PartialEq, Eq, Debug)]
pub struct Counts {
    pub b: u16,
    pub h: u16,
    pub s: u16,
    pub d: u16,
}

impl Counts {
    // Those of a predicate with no bit set.
    pub fn none() -> Counts
        ensures { result ≡ no_counts }
    {
        Counts {
            b: 0,
            h: 0,
            s: 0,
            d: 0,
        }
    }

    // Those of a vector's elements. A vector whose predicate ends within a byte, which no legal one does, is counted size by size.
    pub fn of(p: Predicate, vl: u64) -> Counts
        ensures { result ≡ counts_of vl p }
    {
        let pl = predicates::predicate_length(vl);
        if pl % 8 != 0 {
            return size_by_size(p, vl);
        }
        let q = p.and(Predicate::live(vl, Size::B));
        // Each way has its own call of `tally_in`, which is compiled in at both.
        if pl <= 64 {
            return counts_in(tally_in(first_planes(q)));
        }
        counts_in(tally_in(planes_of(q)))
    }

    // The count at a size.
    pub fn at(self, size: Size) -> u16
        ensures { result ≡ count_at size self }
    {
        match size {
            Size::B => self.b,
            Size::H => self.h,
            Size::S => self.s,
            Size::D => self.d,
        }
    }

    // The four counts as one number, B lowest.
    pub fn packed(self) -> u64
        ensures { result ≡ packed_of self }
    {
        u64::from(self.b)
            + u64::from(self.h) * 0x1_0000
            + u64::from(self.s) * 0x1_0000_0000
            + u64::from(self.d) * 0x1_0000_0000_0000
    }
}

// The counts, each by a count of its own.
#[tactic(auto, unfolding(crate::specs::Counts::counts_of))]
fn size_by_size(p: Predicate, vl: u64) -> Counts
    ensures { result ≡ counts_of vl p }
{
    Counts {
        b: true_elements(p, vl, Size::B),
        h: true_elements(p, vl, Size::H),
        s: true_elements(p, vl, Size::S),
        d: true_elements(p, vl, Size::D),
    }
}

// How many elements are true at a size.
#[tactic(auto, using(crate::proofs::Within::elements_small))]
fn true_elements(p: Predicate, vl: u64, size: Size) -> u16
    ensures { result ≡ true_elements vl size p }
{
    p.count_active(vl, size) as u16
}

// The counts in a number.
fn counts_in(x: u64) -> Counts
    ensures { result ≡ counts_in x }
{
    Counts {
        b: (x % 0x1_0000) as u16,
        h: (x / 0x1_0000 % 0x1_0000) as u16,
        s: (x / 0x1_0000_0000 % 0x1_0000) as u16,
        d: (x / 0x1_0000_0000_0000 % 0x1_0000) as u16,
    }
}

// Every second bit of two words, added in fields of two bits.
#[tactic(auto, using(crate::proofs::Pairs::fields_is), unfolding(crate::proofs::Pairs::nibs))]
fn fields_of(a: u64, b: u64) -> u64
    ensures { result ≡ fields 16 a b }
{
    (a & 0x5555_5555_5555_5555) + (b & 0x5555_5555_5555_5555)
}

// The low field of each half byte, added over two words.
fn low_fields(e: u64, f: u64) -> u64
    ensures { result ≡ bit_and e 0x3333_3333_3333_3333 + bit_and f 0x3333_3333_3333_3333 }
{
    (e & 0x3333_3333_3333_3333) + (f & 0x3333_3333_3333_3333)
}

// The low half of each byte.
#[tactic(auto, using(crate::proofs::Sums::low_halves))]
fn low(x: u64) -> u64
    ensures { result ≡ lows 8 x }
{
    x & 0x0f0f_0f0f_0f0f_0f0f
}

// The sum of eight small bytes.
fn byte_sum(x: u64) -> u64
    ensures { result ≡ byte_sum x }
{
    ((x % 0x1_0000_0000 + x / 0x1_0000_0000) * 0x0101_0101 / 0x100_0000) % 256
}

// The sum of the bytes' low halves.
#[tactic(auto, using(crate::proofs::Sums::sum_lows))]
fn low_sum(x: u64) -> u64
    ensures { result ≡ low_sum 8 x }
{
    byte_sum(low(x))
}

// The sum of the bytes' halves.
#[tactic(auto, using(crate::proofs::Sums::sum_halves, crate::proofs::Total::small_sums))]
fn half_sum(x: u64) -> u64
    ensures { result ≡ low_sum 8 x + low_sum 8 (x / 16) }
{
    byte_sum(low(x) + low(x / 16))
}

// Four counts, from those of the bits 0, 4, 2 and 6, and 1, 3, 5 and 7 of a byte.
fn join(d: u64, f: u64, g: u64, o: u64) -> u64
    requires { (d < 256) × (f < 256) × (g < 256) × (o < 256) }
    ensures { result ≡ packed (d + f + g + o) (d + f + g) (d + f) d }
{
    (d + f + g + o) + (d + f + g) * 0x1_0000 + (d + f) * 0x1_0000_0000 + d * 0x1_0000_0000_0000
}

// The bits of the bytes of a predicate's words, added over its words in both halves of each byte.
#[derive(Clone, Copy)]
pub struct Planes {
    // Bits 0 and 4.
    pub fours: u64,
    // Bits 2 and 6.
    pub twos: u64,
    // Bits 1, 3, 5 and 7.
    pub odds: u64,
}

fn four_words(a: u64, b: u64, c: u64, d: u64) -> Planes
    ensures { result ≡ planes_of a b c d }
{
    let e = fields_of(a, b);
    let f = fields_of(c, d);
    let g = fields_of(a / 2, b / 2);
    let h = fields_of(c / 2, d / 2);
    let fours = low_fields(e, f);
    let twos = low_fields(e / 4, f / 4);
    let y = low_fields(g, h);
    let z = low_fields(g / 4, h / 4);
    Planes {
        fours,
        twos,
        odds: y + z,
    }
}

// The planes of a predicate.
pub fn planes_of(p: Predicate) -> Planes
    ensures { result ≡ planes_in false p }
{
    let [a, b, c, d] = p.words;
    four_words(a, b, c, d)
}

// The planes of its first word alone, which is enough where the others are zero. A function of its own, so that the zeros are known where it is compiled.
pub fn first_planes(p: Predicate) -> Planes
    ensures { result ≡ planes_in true p }
{
    four_words(p.words[0], 0, 0, 0)
}

// The four counts as one number, from the planes. In two steps, so that each is small enough to be compiled in where it is called.
#[tactic(auto, using(crate::proofs::Total::small_sums))]
pub fn tally_in(x: Planes) -> u64
    ensures { result ≡ sums_of x }
{
    join(
        low_sum(x.fours),
        low_sum(x.fours / 16),
        half_sum(x.twos),
        half_sum(x.odds),
    )
}
