// The parts of a register state, each lent: reads and writes where they stand. Where a slice is longer or shorter than there are registers, the state is not legal.
ghost use Rattle.std.specs.Prelude.{◌≡◌, Bool, not, ◌&&◌, List, [], ◌∷◌, ℕ, min, eqb, get_or, set, length};
ghost use Rattle.bits.specs.Choice.{pick};
ghost use Rattle.bits.specs.Search.{some};
ghost use Rattle.predicates.specs.Predicate.{bit_at, pack, all_false};
ghost use Rattle.predicates.specs.PredTest.{flags_of};
ghost use Rattle.tally.specs.Counts.{no_counts, counts_of, same_counts};
ghost use Rattle.tally.specs.Tally.{counts_in, tally_in};
ghost use Rattle.registers.specs.State.{x_registers, register_count, counted_registers};
ghost use Rattle.registers.specs.Legal.{legal};
ghost use Rattle.registers.specs.Parts.{predicates_of, counts_as, counts_from, flags_from, state_at};

use super::{COUNTED, PREDICATES, State, X_REGISTERS, item, put};
use predicates::{Flags, Predicate};
use tally::Counts;

// What no instruction changes.
#[repr(C)]
#[derive(Clone, Copy, PartialEq, Eq, Debug)]
pub struct Settings {
    // The vector length in bits.
    pub vl: u64,
    // 0 none, 1 SVE, 2 SVE2, 3 SVE2p1.
    pub level: u8,
    pub access: bool,
}

// The counts of a register's numbers: those of B, H, S and D.
fn counts_in(c: [u16; 4]) -> Counts
    ensures { result ≡ counts_as c }
{
    Counts {
        b: c[0],
        h: c[1],
        s: c[2],
        d: c[3],
    }
}

// A register's counts, as those of B, H, S and D.
fn numbers_in(c: Counts) -> [u16; 4]
    ensures { result ≡ c.b ∷ c.h ∷ c.s ∷ c.d ∷ [] }
{
    [c.b, c.h, c.s, c.d]
}

// A number past the last register reads as zero.
pub fn x_at(x: &[u64], r: u64) -> u64
    ensures { result ≡ get_or x.now r 0 }
{
    item(x, r, 0)
}

// A write past the last register vanishes.
pub fn put_x(x: &mut [u64], r: u64, v: u64)
    ensures { x.new ≡ set x.old r v }
{
    put(x, r, v);
}

// A number past the last register reads as all false.
pub fn p_at(p: &[[u64; 4]], r: u64) -> Predicate
    ensures { result ≡ get_or (predicates_of p.now) r all_false }
{
    Predicate {
        words: item(p, r, Predicate::none().words),
    }
}

// A number past the last register reads as zeros.
pub fn counts_at(counts: &[[u16; 4]], r: u64) -> Counts
    ensures { result ≡ get_or (counts_from counts.now) r no_counts }
{
    counts_in(item(counts, r, [0; 4]))
}

// A predicate, with its counts beside it; a write past the last register vanishes, and so do the counts of FFR.
pub fn put_p(p: &mut [[u64; 4]], counts: &mut [[u16; 4]], vl: u64, r: u64, q: Predicate)
    ensures p_after { predicates_of p.new ≡ set (predicates_of p.old) r q }
    ensures counts_after { counts_from counts.new ≡ set (counts_from counts.old) r (counts_of vl q) }
{
    put(p, r, q.words);
    let i = r as usize;
    // FFR has no counts, and none are worked out for it.
    if i < counts.len() {
        counts[i] = numbers_in(Counts::of(q, vl));
    }
}

// The flags of a number NZCV, if they are to be set.
pub fn put_flags(flags: &mut [bool; 4], sets: bool, nzcv: u64)
    ensures { flags_from flags.new ≡ pick sets (flags_of nzcv) (flags_from flags.old) }
{
    if sets {
        *flags = bits_of_flags(Flags::of(nzcv));
    }
}

// The bits that any of the predicates has.
fn union(p: &[[u64; 4]]) -> Predicate
    ensures { result ≡ pack (λ b. some (λ r. bit_at (get_or (predicates_of p.now) r all_false) b) (length (predicates_of p.now))) }
{
    let mut q = Predicate::none();
    for &words in p {
        q = Predicate { words }.or(q);
    }
    q
}

// 0 exactly if the counts are those of a predicate; `low` counts its first word alone.
fn difference(q: Predicate, c: Counts, low: bool) -> u64
    ensures { eqb result 0 ≡ same_counts (counts_in (tally_in low q)) c }
{
    if low {
        return tally::tally_in(tally::first_planes(q)) ^ c.packed();
    }
    tally::tally_in(tally::planes_of(q)) ^ c.packed()
}

// Whether the counts are those of the predicates that they stand beside; `low` goes by the first word of each alone. No test in the loop depends on a register, so that it is compiled to several
// registers at a time. By index: as a zip it is compiled to fewer, and is slower.
#[inline(never)]
pub fn counts_agree(p: &[[u64; 4]], counts: &[[u16; 4]], low: bool) -> bool
    ensures { result ≡ not (some (λ i. not (same_counts (counts_in (tally_in low (get_or (predicates_of p.now) i all_false))) (get_or (counts_from counts.now) i no_counts)))
        (min (length (predicates_of p.now)) (length (counts_from counts.now)))) }
{
    let mut bad = 0;
    // By index: over a `zip` fewer registers are done at a time.
    for i in 0..p.len().min(counts.len()) {
        bad |= difference(Predicate { words: p[i] }, counts_in(counts[i]), low);
    }
    bad == 0
}

// Whether this many registers and counts are as many as there are.
fn are_all(x: usize, p: usize, counts: usize) -> bool
    ensures { result ≡ (eqb x x_registers && (eqb p register_count && eqb counts counted_registers)) }
{
    x == X_REGISTERS && p == PREDICATES && counts == COUNTED
}

// Whether reply 4 does not refuse a state of these settings, registers and counts, whatever its flags. The predicates are joined first, so that one test of stray bits serves all.
pub fn is_legal(settings: Settings, x: &[u64], p: &[[u64; 4]], counts: &[[u16; 4]]) -> bool
    ensures { (f : List Bool) → result ≡ legal (state_at settings f x.now p.now counts.now) }
{
    if !are_all(x.len(), p.len(), counts.len()) {
        return false;
    }
    if !super::settings_allowed(settings.vl, settings.level) {
        return false;
    }
    let pl = predicates::predicate_length(settings.vl);
    if !union(p).is_within(pl) {
        return false;
    }
    counts_agree(p, counts, pl <= 64)
}

// Each predicate by its words. By index: `map` moves each element through an `Option`, and of a closure that returns an array no fact is known.
pub fn words_of(p: [Predicate; PREDICATES]) -> [[u64; 4]; PREDICATES]
    ensures { predicates_of result ≡ p }
{
    let mut rows = [[0; 4]; PREDICATES];
    for r in 0..PREDICATES {
        rows[r] = p[r].words;
    }
    rows
}

// The predicates of these words. By index, since `map` is slower.
pub fn predicates_of(p: [[u64; 4]; PREDICATES]) -> [Predicate; PREDICATES]
    ensures { result ≡ predicates_of p }
{
    std::array::from_fn(|r| Predicate { words: p[r] })
}

// Each register's counts, as those of B, H, S and D.
pub fn numbers_of(counts: [Counts; COUNTED]) -> [[u16; 4]; COUNTED]
    ensures { counts_from result ≡ counts }
{
    let mut rows = [[0; 4]; COUNTED];
    for r in 0..COUNTED {
        rows[r] = numbers_in(counts[r]);
    }
    rows
}

// The counts of these numbers.
pub fn counts_of(counts: [[u16; 4]; COUNTED]) -> [Counts; COUNTED]
    ensures { result ≡ counts_from counts }
{
    std::array::from_fn(|r| counts_in(counts[r]))
}

// N, Z, C and V.
pub fn bits_of_flags(flags: Flags) -> [bool; 4]
    ensures { result ≡ flags.n ∷ flags.z ∷ flags.c ∷ flags.v ∷ [] }
{
    [flags.n, flags.z, flags.c, flags.v]
}

// Flags of N, Z, C and V.
pub fn flags_of(bits: [bool; 4]) -> Flags
    ensures { result ≡ flags_from bits }
{
    Flags {
        n: bits[0],
        z: bits[1],
        c: bits[2],
        v: bits[3],
    }
}

// The state of these parts.
pub fn state_of(
    settings: Settings,
    flags: [bool; 4],
    x: [u64; X_REGISTERS],
    p: [[u64; 4]; PREDICATES],
    counts: [[u16; 4]; COUNTED],
) -> State
    ensures { result ≡ state_at settings flags x p counts }
{
    State {
        vl: settings.vl,
        level: settings.level,
        access: settings.access,
        flags: flags_of(flags),
        x,
        p: predicates_of(p),
        counts: counts_of(counts),
    }
}
