// The register state: reads and writes, and which of its values are legal.
// FFR, the first-fault register, is predicate register 16, after P0 to P15: reads, writes and legality know it as they know the others. No field of a word can name it.
// Beside each of P0 to P15 its number of true elements at each size is kept: a write of a predicate works them out, and nothing else changes them.
// X31, and any number past the last register, reads as zero or all false, and a write to it vanishes. A state is legal unless its vector length is none of the five, its level is above 3,
// a predicate has a bit at or above VL/8, or a count is wrong: reply 4 refuses it. State's methods take the state by value and return it; `parts` has the same over registers lent one by one.
#![tactic(auto)]

ghost use Rattle.std.specs.Prelude.{◌≡◌, get_or, set};
ghost use Rattle.bits.specs.Search.{some};
ghost use Rattle.predicates.specs.Predicate.{bit_at, pack, all_false};
ghost use Rattle.registers.specs.State.{all_counts, made, counted, read_x, read_p, read_counts, with_x, with_p, with_flags};
ghost use Rattle.registers.specs.Parts.{settings_of};
ghost use Rattle.registers.specs.Legal.{is_length, settings_allowed, legal};

pub mod parts;

use parts::Settings;
use predicates::{Flags, Predicate};
use tally::Counts;

// How many X registers there are: X0 to X30.
pub const X_REGISTERS: usize = 31;
// The number of FFR among the predicate registers.
pub const FFR: u8 = 16;
// How many predicate registers there are, FFR the last.
pub const PREDICATES: usize = 17;
// How many of them have counts beside them: all but FFR.
pub const COUNTED: usize = 16;

#[repr(C)]
#[derive(Clone, Copy, PartialEq, Eq, Debug)]
pub struct State {
    // The vector length in bits.
    pub vl: u64,
    // 0 none, 1 SVE, 2 SVE2, 3 SVE2p1.
    pub level: u8,
    pub access: bool,
    pub flags: Flags,
    pub x: [u64; X_REGISTERS],
    // P0 to P15, then FFR.
    pub p: [Predicate; PREDICATES],
    // The true elements of P0 to P15.
    pub counts: [Counts; COUNTED],
}

impl State {
    // A state of these settings and registers, its counts worked out; nothing is tested.
    pub fn new(
        vl: u64,
        level: u8,
        access: bool,
        flags: Flags,
        x: [u64; X_REGISTERS],
        p: [Predicate; PREDICATES],
    ) -> State
        ensures { result ≡ made vl level access flags x p }
    {
        State {
            vl,
            level,
            access,
            flags,
            x,
            p,
            counts: all_counts(p, vl),
        }
    }

    // The state with its counts worked out, and all else as it is.
    pub fn counted(self) -> State
        ensures { result ≡ counted self }
    {
        State::new(self.vl, self.level, self.access, self.flags, self.x, self.p)
    }

    // VL, level and access.
    pub fn settings(self) -> Settings
        ensures { result ≡ settings_of self }
    {
        Settings {
            vl: self.vl,
            level: self.level,
            access: self.access,
        }
    }

    // X0 to X30; number 31 and above read as zero.
    pub fn read_x(self, r: u64) -> u64
        ensures { result ≡ read_x self r }
    {
        item(&self.x, r, 0)
    }

    // P0 to P15, and FFR by number 16; number 17 and above read as all false.
    pub fn read_p(self, r: u64) -> Predicate
        ensures { result ≡ read_p self r }
    {
        item(&self.p, r, Predicate::none())
    }

    // The counts beside P0 to P15; number 16 and above read as zeros.
    pub fn read_counts(self, r: u64) -> Counts
        ensures { result ≡ read_counts self r }
    {
        item(&self.counts, r, Counts::none())
    }

    // The state with Xr anew; a write past X30 vanishes.
    pub fn with_x(mut self, r: u64, v: u64) -> State
        ensures { result ≡ with_x self r v }
    {
        put(&mut self.x, r, v);
        self
    }

    // The state with Pr and its counts anew, or FFR by number 16; a write past it vanishes.
    pub fn with_p(mut self, r: u64, q: Predicate) -> State
        ensures { result ≡ with_p self r q }
    {
        put(&mut self.p, r, q);
        let i = r as usize;
        // FFR has no counts, and none are worked out for it.
        if i < COUNTED {
            self.counts[i] = Counts::of(q, self.vl);
        }
        self
    }

    // The state with other flags.
    pub fn with_flags(mut self, flags: Flags) -> State
        ensures { result ≡ with_flags self flags }
    {
        self.flags = flags;
        self
    }

    // Whether reply 4 does not refuse the state. Compiled into a walk, it would have the state copied there for each register that is read.
    #[inline(never)]
    pub fn is_legal(self) -> bool
        ensures { result ≡ legal self }
    {
        let p = parts::words_of(self.p);
        let counts = parts::numbers_of(self.counts);
        parts::is_legal(self.settings(), &self.x, &p, &counts)
    }
}

// The five vector lengths.
#[tactic(auto, unfolding(crate::specs::Legal::is_length))]
pub fn is_length(vl: u64) -> bool
    ensures { result ≡ is_length vl }
{
    matches!(vl, 128 | 256 | 512 | 1024 | 2048)
}

// The five vector lengths, and level at most 3: for a state, and for an image's settings.
pub fn settings_allowed(vl: u64, level: u8) -> bool
    ensures { result ≡ settings_allowed vl level }
{
    is_length(vl) && level <= 3
}

// The counts of P0 to P15.
fn all_counts(p: [Predicate; PREDICATES], vl: u64) -> [Counts; COUNTED]
    ensures { result ≡ all_counts vl p }
{
    std::array::from_fn(|i| Counts::of(p[i], vl))
}

// Item r, or `none` past the last.
fn item<T: Copy + Drop>(items: &[T], r: u64, none: T) -> T
    ensures { result ≡ get_or items.now r none }
{
    items.get(r as usize).copied().unwrap_or(none)
}

// A write past the last item vanishes.
fn put<T: Copy + Drop>(items: &mut [T], r: u64, v: T)
    ensures { items.new ≡ set items.old r v }
{
    let i = r as usize;
    if i < items.len() {
        items[i] = v;
    }
}
