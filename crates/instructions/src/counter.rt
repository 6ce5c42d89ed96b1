// Predicates as counters: WHILE into one, and CNTP of one.
ghost use Rattle.std.specs.Prelude.{◌≡◌, ◌*◌, ◌/◌, ◌^◌, ◌<◌, ◌≤◌, max, false};
ghost use Rattle.bits.specs.Bits.{element_bit};
ghost use Rattle.bits.specs.Search.{count};
ghost use Rattle.bits.specs.Size.{shift};
ghost use Rattle.predicates.specs.Predicate.{predicate_length, elements};
ghost use Rattle.predicates.specs.PredTest.{nzcv};
ghost use Rattle.instructions.specs.Counter.{group_of, stored, counter_of, counter_flags, count_above, expanded, while_counter_of, cntp_counter_of};
ghost use Rattle.instructions.specs.Effect.{computed};

use super::effect::Computed;
use super::whiles::{Comparison, Run};
use bits::Size;
use predicates::Predicate;

// The elements of two vectors, or of four.
pub fn group(four: bool, vl: u64, size: Size) -> u64
    ensures { result ≡ group_of four (elements vl size) }
{
    let n = predicates::elements(vl, size);
    if four { 4 * n } else { 2 * n }
}

// A count above the mark of its size.
fn marked(n: u64, size: Size) -> u64
    requires { n ≤ 1024 }
    ensures { result ≡ stored false n (shift size) }
{
    (n * 2 + 1) << size.shift()
}

// The elements of a group that are true, as they are stored.
#[tactic(auto, unfolding(crate::specs::Counter::counter_of))]
fn counter(run: Run, size: Size) -> u64
    requires { run.n ≤ 1024 }
    ensures { result ≡ counter_of run.up run.n run.held (shift size) }
{
    if run.held == 0 {
        return 0;
    }
    if !run.up {
        return 0x8000 + marked(run.n - run.held, size);
    }
    if run.held == run.n {
        return 0x8000 + marked(0, size);
    }
    marked(run.held, size)
}

#[tactic(auto, unfolding(crate::specs::Counter::counter_flags))]
fn counter_flags(run: Run) -> u64
    ensures { result ≡ nzcv (counter_flags run.up run.n run.held) }
{
    let none = run.held == 0;
    if run.up {
        return predicates::nzcv(!none, none, run.held != run.n);
    }
    predicates::nzcv(run.held == run.n, none, none)
}

// WHILE into a counter: how many elements of a group are true.
pub fn while_counter(compared: Comparison, four: bool, size: Size, vl: u64) -> Computed
    ensures { result ≡ computed (while_counter_of compared.condition compared.unsigned four size compared.rn compared.rm vl) }
{
    let run = compared.run(true, group(four, vl, size));
    Computed::flagged(Predicate::of_word(counter(run, size)), counter_flags(run))
}

// CNTP of a counter: of the elements of two vectors, or of four.
#[tactic(auto, unfolding(crate::specs::Counter::cntp_counter_of))]
pub fn cntp_counter(four: bool, size: Size, pn: Predicate, vl: u64) -> Computed
    ensures { result ≡ computed (cntp_counter_of four size pn vl) }
{
    let g = group(four, vl, size);
    Computed::number(count_expanded(pn, size, g, vl))
}

// How many of the first `g` elements of a size an expanded counter has. An element of the mark's size counts where one of that size
// starts as well, which is where one of the larger of the two does.
#[tactic(auto, using(crate::proofs::CounterLaws::end_fits, crate::proofs::CounterLaws::held_fits, crate::proofs::CounterLaws::larger_lt, crate::proofs::CounterLaws::fewer))]
fn count_expanded(p: Predicate, size: Size, g: u64, vl: u64) -> u64
    requires { g ≤ 1024 }
    ensures { result ≡ count (λ e. expanded vl p (e * 2 ^ shift size)) g }
{
    let word = p.words[0];
    let mark = bits::lowest_bit(word);
    if 4 <= mark {
        return 0;
    }
    let k = size.shift();
    let larger = k.max(mark);
    let end = (g << k).min(mark_end(mark, vl));
    let n = starts_below(end.min(count_above(p, mark, vl) << mark), larger);
    if (word >> 15) % 2 == 1 {
        return starts_below(end, larger) - n;
    }
    n
}

// The bit at which the elements of four vectors, of 2 ^ mark bits each, end.
fn mark_end(mark: u64, vl: u64) -> u64
    requires { mark < 4 }
    ensures { result ≡ 4 * (predicate_length vl / 2 ^ mark) * 2 ^ mark }
{
    (4 * (predicates::predicate_length(vl) >> mark)) << mark
}

// The count of a counter: the bits above its mark, up to the highest set bit of 4 PL.
fn count_above(p: Predicate, mark: u64, vl: u64) -> u64
    requires { mark < 4 }
    ensures { result ≡ count_above vl mark p }
{
    let length = bits::bit_length(4 * predicates::predicate_length(vl));
    (p.words[0] % (1 << length)) >> (mark + 1)
}

// How many elements of 2 ^ k bits start below bit `b`: a division that rounds up.
fn starts_below(b: u64, k: u64) -> u64
    requires { (b ≤ 1024) × (k < 4) }
    ensures { result ≡ count (element_bit k) b }
{
    (b + ((1 << k) - 1)) >> k
}
