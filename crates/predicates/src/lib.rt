// Predicates of up to 256 bits, in four words, and what their elements say.
// Element e of a size is true exactly if its lowest bit is 1; its other bits are ignored when read and zero when an element is written.
// What lies past a vector's elements is masked away, so no function asks for a legal predicate. Flags are answered as the number NZCV.
#![tactic(auto)]

ghost use Rattle.std.specs.Prelude.{◌≡◌, ℕ, false, not, ◌&&◌, ◌||◌, ◌+◌, ◌-◌, ◌*◌, ◌/◌, ◌^◌, ◌%◌, ◌<◌, min, eqb, get_or};
ghost use Rattle.std.specs.Bool.{xor as xor_bits};
ghost use Rattle.bits.specs.Bits.{test_bit, number};
ghost use Rattle.bits.specs.Choice.{digit};
ghost use Rattle.bits.specs.Search.{count as count_bits, some, first_from, after_last};
ghost use Rattle.bits.specs.Size.{shift};
ghost use Rattle.predicates.specs.Predicate.{bit_at, pack, all_false, active, touched, spread, span_of, predicate_length, elements as elements_of, live_of, has_bit_from, monotonic};
ghost use Rattle.predicates.specs.PredTest.{at_lowest, at_highest, pred_test, nzcv as nzcv_of, flags_of};

use bits::Size;

// A predicate register: bit b is bit b % 64 of word b / 64.
#[repr(C)]
#[derive(Clone, Copy, PartialEq, Eq, Debug)]
pub struct Predicate {
    pub words: [u64; 4],
}

#[repr(C)]
#[derive(Clone, Copy, PartialEq, Eq, Debug)]
pub struct Flags {
    pub n: bool,
    pub z: bool,
    pub c: bool,
    pub v: bool,
}

// The length of a predicate in bits.
#[tactic(auto, unfolding(crate::specs::Predicate::predicate_length))]
pub fn predicate_length(vl: u64) -> u64
    ensures { result ≡ predicate_length vl }
{
    (vl / 8).min(256)
}

// The number of elements in a vector.
#[tactic(auto, unfolding(crate::specs::Predicate::elements))]
pub fn elements(vl: u64, size: Size) -> u64
    ensures { result ≡ elements_of vl size }
{
    predicate_length(vl) >> size.shift()
}

impl Predicate {
    // No bit set.
    #[tactic(auto, unfolding(crate::specs::Predicate::pack, bits::specs::Bits::number))]
    pub fn none() -> Predicate
        ensures { result ≡ all_false }
    {
        Predicate { words: [0; 4] }
    }

    // The bits of a word, and no other.
    pub fn of_word(word: u64) -> Predicate
        ensures { result ≡ pack (test_bit word) }
    {
        Predicate {
            words: [word, 0, 0, 0],
        }
    }

    // Word by word.
    fn zip<F: Fn(u64, u64) -> u64>(self, other: Predicate, join: F) -> Predicate
        requires { F.IsAlwaysCallable join }
        ensures { (i : ℕ) → i < 4 → F.post join (get_or self.words i 0) (get_or other.words i 0) (get_or result.words i 0) }
    {
        let p = self.words;
        let q = other.words;
        Predicate {
            words: [
                join(p[0], q[0]),
                join(p[1], q[1]),
                join(p[2], q[2]),
                join(p[3], q[3]),
            ],
        }
    }

    // Bit by bit.
    pub fn and(self, other: Predicate) -> Predicate
        ensures { result ≡ pack (λ b. bit_at self b && bit_at other b) }
    {
        self.zip(other, |p, q| p & q)
    }

    // Bit by bit.
    pub fn or(self, other: Predicate) -> Predicate
        ensures { result ≡ pack (λ b. bit_at self b || bit_at other b) }
    {
        self.zip(other, |p, q| p | q)
    }

    // The bits that the other does not have.
    pub fn and_not(self, other: Predicate) -> Predicate
        ensures { result ≡ pack (λ b. bit_at self b && not (bit_at other b)) }
    {
        self.zip(other, |p, q| p & !q)
    }

    // Bit by bit, exclusive.
    pub fn xor(self, other: Predicate) -> Predicate
        ensures { result ≡ pack (λ b. xor_bits (bit_at self b) (bit_at other b)) }
    {
        self.zip(other, |p, q| p ^ q)
    }

    // Each of the 256 bits inverted.
    pub fn complement(self) -> Predicate
        ensures { result ≡ pack (λ b. not (bit_at self b)) }
    {
        self.zip(self, |p, _| !p)
    }

    // Whether no bit is set. Without a branch for each word.
    pub fn is_empty(self) -> bool
        ensures { result ≡ not (some (bit_at self) 256) }
    {
        let w = self.words;
        (w[0] | w[1] | w[2] | w[3]) == 0
    }

    // How many bits are set.
    pub fn count(self) -> u64
        ensures { result ≡ count_bits (bit_at self) 256 }
    {
        let w = self.words;
        // A vector of at most 512 bits has one word.
        if (w[1] | w[2] | w[3]) == 0 {
            return bits::ones(w[0]);
        }
        bits::ones(w[0]) + bits::ones(w[1]) + bits::ones(w[2]) + bits::ones(w[3])
    }

    // The lowest bit set, or 256.
    pub fn lowest(self) -> u64
        ensures { result ≡ first_from (bit_at self) 0 256 }
    {
        for (i, word) in self.words.iter().enumerate() {
            if *word != 0 {
                return (i as u64) * 64 + bits::lowest_bit(*word);
            }
        }
        256
    }

    // One more than the highest bit set, or 0. The lowest word is not tested: the highest bit of most predicates is in it.
    pub fn after_highest(self) -> u64
        ensures { result ≡ after_last (bit_at self) 256 }
    {
        for i in (1..4).rev() {
            let word = self.words[i];
            if word != 0 {
                return (i as u64) * 64 + bits::bit_length(word);
            }
        }
        bits::bit_length(self.words[0])
    }

    // Word `i`, by comparisons: the words need not stand in memory to be chosen from.
    fn word(self, i: u64) -> u64
        requires { i < 4 }
        ensures { result ≡ get_or self.words i 0 }
    {
        let w = self.words;
        if i < 2 {
            if i == 0 { w[0] } else { w[1] }
        } else {
            if i == 2 { w[2] } else { w[3] }
        }
    }

    // Bit `b`; 0 from bit 256 on.
    pub fn bit(self, b: u64) -> bool
        ensures { result ≡ bit_at self b }
    {
        b < 256 && bit_of(self.word(b / 64), b)
    }

    // Whether an element's lowest bit is 1.
    pub fn is_active(self, size: Size, e: u64) -> bool
        ensures { result ≡ active (shift size) self e }
    {
        e < 256 && self.bit(e << size.shift())
    }

    // The first active element from `start` on and below `elements`; `elements` if there is none, or `start` where that is past them.
    pub fn next_active(self, size: Size, start: u64, elements: u64) -> u64
        ensures { result ≡ first_from (active (shift size) self) start elements }
    {
        if elements <= start {
            return start;
        }
        // In a walk it is nearly always this one. By a branch, so that the next search does not wait for a count of zeros.
        if self.is_active(size, start) {
            return start;
        }
        self.next_after(size, start, elements)
    }

    // The first active element after `start` and below `elements`, or `elements`; by words.
    fn next_after(self, size: Size, start: u64, elements: u64) -> u64
        requires { start < elements }
        ensures { result ≡ first_from (active (shift size) self) (start + 1) elements }
    {
        if 256 <= start {
            return elements;
        }
        let k = size.shift();
        let b = self.lowest_from(size, (start + 1) << k);
        if 256 <= b {
            return elements;
        }
        (b >> k).min(elements)
    }

    // The first bit from `from` on that is the lowest of an active element; 256 or more if there is none. Words without one are skipped.
    fn lowest_from(self, size: Size, from: u64) -> u64
        ensures { result ≡ first_from (spread (shift size) (active (shift size) self)) from 256 }
    {
        if 256 <= from {
            return from;
        }
        let mask = bits::element_mask(size);
        let mut i = (from / 64) as usize;
        // Of the first word, the bits from `from` on.
        let mut word = ((self.words[i] & mask) >> (from % 64)) << (from % 64);
        // A loop that ends by `break`: the form that is asked for.
        let found = loop {
            if word != 0 {
                break (i as u64) * 64 + bits::lowest_bit(word);
            }
            i += 1;
            if 4 <= i {
                break 256;
            }
            word = self.words[i] & mask;
        };
        found
    }

    // Only bit `b` set. By a branch for each word: with four choices, or a store at b / 64, a walk is slower.
    pub fn only(b: u64) -> Predicate
        ensures { result ≡ pack (λ i. eqb i b) }
    {
        let bit: u64 = 1 << (b % 64);
        if b < 64 {
            return Predicate {
                words: [bit, 0, 0, 0],
            };
        }
        if b < 128 {
            return Predicate {
                words: [0, bit, 0, 0],
            };
        }
        if b < 192 {
            return Predicate {
                words: [0, 0, bit, 0],
            };
        }
        if b < 256 {
            return Predicate {
                words: [0, 0, 0, bit],
            };
        }
        Predicate::none()
    }

    // The first `n` elements active.
    pub fn first(size: Size, n: u64) -> Predicate
        ensures { result ≡ span_of (shift size) 0 n }
    {
        let end = end_of(size, n);
        let e = bits::element_mask(size);
        let word = |at| e & bits::low_mask(end, at);
        if end <= 64 {
            return Predicate {
                words: [word(0), 0, 0, 0],
            };
        }
        Predicate {
            words: [word(0), word(64), word(128), word(192)],
        }
    }

    // The elements from `from` on and below `to` active.
    pub fn span(size: Size, from: u64, to: u64) -> Predicate
        ensures { result ≡ span_of (shift size) from to }
    {
        let end = Predicate::first(size, to);
        if from == 0 {
            return end;
        }
        end.and_not(Predicate::first(size, from))
    }

    // Every element of a vector active.
    pub fn live(vl: u64, size: Size) -> Predicate
        ensures { result ≡ live_of vl size }
    {
        Predicate::first(size, elements(vl, size))
    }

    // How many of a vector's elements are active.
    pub fn count_active(self, vl: u64, size: Size) -> u64
        ensures { result ≡ count_bits (active (shift size) self) (elements_of vl size) }
    {
        self.and(Predicate::live(vl, size)).count()
    }

    // One more than the highest element that has a bit set, or 0.
    pub fn end_element(self, size: Size) -> u64
        ensures { result ≡ after_last (touched (shift size) self) 256 }
    {
        let end = self.after_highest();
        let k = size.shift();
        (end + ((1 << k) - 1)) >> k
    }

    // Only element `e` active.
    pub fn only_element(size: Size, e: u64) -> Predicate
        ensures { result ≡ pack (spread (shift size) (λ i. eqb i e)) }
    {
        if 256 <= e {
            return Predicate::none();
        }
        Predicate::only(e << size.shift())
    }

    // Whether no bit at or above `pl` is set.
    pub fn is_within(self, pl: u64) -> bool
        ensures { result ≡ not (has_bit_from pl self) }
    {
        self.and_not(Predicate::first(Size::B, pl)).is_empty()
    }

    // Whether the bits set are a run from bit 0: then there are as many as the highest one tells.
    pub fn is_monotonic(self) -> bool
        ensures { result ≡ monotonic self }
    {
        self.count() == self.after_highest()
    }
}

// The bit at which the first `n` elements end.
fn end_of(size: Size, n: u64) -> u64
    ensures { result ≡ min n 256 * 2 ^ shift size }
{
    n.min(256) << size.shift()
}

// Whether bit `b` of a word is set, for a bit of the word.
#[tactic(auto, unfolding(bits::specs::Bits::test_bit))]
fn bit_of(word: u64, b: u64) -> bool
    ensures { result ≡ test_bit word (b % 64) }
{
    (word >> (b % 64)) % 2 == 1
}

// The result at the lowest bit of the mask.
fn at_lowest(mask: Predicate, res: Predicate) -> bool
    ensures { result ≡ at_lowest (bit_at mask) (bit_at res) 256 }
{
    res.bit(mask.lowest())
}

// The result at the highest bit of the mask.
fn at_highest(mask: Predicate, res: Predicate) -> bool
    ensures { result ≡ at_highest (bit_at mask) (bit_at res) 256 }
{
    for i in (0..4).rev() {
        let word = mask.words[i];
        if word != 0 {
            return bit_of(res.words[i], bits::bit_length(word) + 63);
        }
    }
    false
}

// N, Z and C, with V clear, as the number NZCV.
#[tactic(auto, unfolding(crate::specs::PredTest::nzcv))]
pub fn nzcv(n: bool, z: bool, c: bool) -> u64
    ensures { result ≡ nzcv_of (record { n = n; z = z; c = c; v = false }) }
{
    u64::from(n) * 8 + u64::from(z) * 4 + u64::from(c) * 2
}

impl Flags {
    // The flags of a number NZCV.
    #[tactic(auto, unfolding(crate::specs::PredTest::flags_of))]
    pub fn of(nzcv: u64) -> Flags
        ensures { result ≡ flags_of nzcv }
    {
        Flags {
            n: bit_of(nzcv, 3),
            z: bit_of(nzcv, 2),
            c: bit_of(nzcv, 1),
            v: bit_of(nzcv, 0),
        }
    }
}

// PredTest over the 256 bits, as the number NZCV.
pub fn test_bits(mask: Predicate, res: Predicate) -> u64
    ensures { result ≡ nzcv_of (pred_test (bit_at mask) (bit_at res) 256) }
{
    let n = at_lowest(mask, res);
    let z = mask.and(res).is_empty();
    let c = at_highest(mask, res);
    nzcv(n, z, !c)
}

// PredTest over the 256 bits, of a result that has only bit `b`, as the number NZCV.
pub fn test_only(mask: Predicate, b: u64) -> u64
    ensures { result ≡ nzcv_of (pred_test (bit_at mask) (λ i. eqb i b) 256) }
{
    if !mask.bit(b) {
        return nzcv(false, true, true);
    }
    nzcv(mask.lowest() == b, false, mask.after_highest() != b + 1)
}

// PredTest over a vector's elements, as the number NZCV.
pub fn pred_test(mask: Predicate, res: Predicate, vl: u64, size: Size) -> u64
    ensures { result ≡ nzcv_of (pred_test (active (shift size) mask) (active (shift size) res) (elements_of vl size)) }
{
    test_bits(mask.and(Predicate::live(vl, size)), res)
}
