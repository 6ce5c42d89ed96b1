// WHILE into a predicate or a pair of them.
ghost use Rattle.std.specs.Prelude.{◌≡◌, ◌-◌, ◌≤◌};
ghost use Rattle.bits.specs.Choice.{pick};
ghost use Rattle.bits.specs.Search.{count};
ghost use Rattle.predicates.specs.PredTest.{nzcv};
ghost use Rattle.scalars.specs.Value.{width_of, low_of};
ghost use Rattle.scalars.specs.While.{upward, comparison, all_held};
ghost use Rattle.instructions.specs.Effect.{computed};
ghost use Rattle.instructions.specs.Whiles.{while_one_of, while_pair_of, span_flags};

use super::effect::Computed;
use super::operands::Values;
use bits::Size;
use predicates::Predicate;
use scalars::Condition;

// What a WHILE compares: Rn, which steps, with Rm.
#[derive(Clone, Copy)]
pub struct Comparison {
    pub condition: Condition,
    pub unsigned: bool,
    pub rn: u64,
    pub rm: u64,
}

impl Comparison {
    // That of the values that are read.
    pub fn of(condition: Condition, unsigned: bool, v: Values) -> Comparison
        ensures { result ≡ record { condition = condition; unsigned = unsigned; rn = v.rn; rm = v.rm } }
    {
        Comparison {
            condition,
            unsigned,
            rn: v.rn,
            rm: v.rm,
        }
    }

    // The elements that `n` comparisons make true; `wide` compares whole registers, else low words.
    // Inlined, so that what is compared is passed on in registers.
    #[inline(always)]
    pub fn run(self, wide: bool, n: u64) -> Run
        ensures up { result.up ≡ upward self.condition }
        ensures held { result.held ≡ count (all_held (comparison (width_of wide) self.unsigned self.condition (low_of (width_of wide) self.rn) (low_of (width_of wide) self.rm))) n }
        ensures n { result.n ≡ n }
    {
        Run {
            up: scalars::counts_up(self.condition),
            held: scalars::held(self.condition, self.unsigned, wide, self.rn, self.rm, n),
            n,
        }
    }
}

// Of `n` elements those that are true: `held` of them, the first ones counting up, the last ones counting down.
#[derive(Clone, Copy)]
pub struct Run {
    pub up: bool,
    pub held: u64,
    pub n: u64,
    ghost within: { held ≤ n },
}

impl Run {
    // The first true element.
    fn start(self) -> u64
        ensures { result ≡ pick self.up 0 (self.n - self.held) }
    {
        if self.up {
            return 0;
        }
        self.n - self.held
    }

    // The end of the true ones.
    fn end(self) -> u64
        ensures { result ≡ pick self.up self.held self.n }
    {
        if self.up {
            return self.held;
        }
        self.n
    }

    // PredTest under an all-true mask; with no element N0 Z1 C1.
    fn flags(self) -> u64
        ensures { result ≡ nzcv (span_flags self.up self.held self.n) }
    {
        let none = self.held == 0;
        let all = !none & (self.held == self.n);
        if self.up {
            return predicates::nzcv(!none, none, !all);
        }
        predicates::nzcv(all, none, none)
    }
}

// PredTest of `n` elements with `c` true, counted up or down, under an all-true mask; with no element N0 Z1 C1.
#[tactic(auto, using(crate::proofs::WhileLaws::span_capped))]
pub fn while_flags(up: bool, c: u64, n: u64) -> u64
    ensures { result ≡ nzcv (span_flags up c n) }
{
    let run = Run {
        up,
        held: c.min(n),
        n,
    };
    run.flags()
}

// Into one predicate.
pub fn while_one(compared: Comparison, wide: bool, size: Size, vl: u64) -> Computed
    ensures { result ≡ computed (while_one_of compared.condition compared.unsigned wide size compared.rn compared.rm vl) }
{
    let run = compared.run(wide, predicates::elements(vl, size));
    let q = Predicate::span(size, run.start(), run.end());
    Computed::flagged(q, run.flags())
}

// Into a pair: the elements of two vectors.
pub fn while_pair(compared: Comparison, size: Size, vl: u64) -> Computed
    ensures { result ≡ computed (while_pair_of compared.condition compared.unsigned size compared.rn compared.rm vl) }
{
    let n = predicates::elements(vl, size);
    let run = compared.run(true, 2 * n);
    let from = run.start();
    let to = run.end();
    let low = Predicate::span(size, from, to.min(n));
    let high = Predicate::span(size, from.saturating_sub(n), to.saturating_sub(n));
    Computed {
        pd2: high,
        ..Computed::flagged(low, run.flags())
    }
}
