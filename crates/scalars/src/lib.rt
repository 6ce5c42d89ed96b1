// What instructions do with general registers: WHILE's comparisons, and saturating sums.
// An operand of a WHILE steps by one and wraps at its own width, 64 bits or 32; `held` tells how many comparisons hold before the first that fails.
// A saturating sum stops at the ends of its own range, signed or unsigned, and is extended to 64 bits.
#![tactic(auto)]

ghost use Rattle.std.specs.Prelude.{◌≡◌, ℕ, ℤ, pos, Some};
ghost use Rattle.std.specs.Int.{Width, w32, w64};
ghost use Rattle.std.proofs.Common.{to_z, of_z};
ghost use Rattle.std.specs.Ordering.{int_cmp};
ghost use Rattle.std.proofs.Common.{rules};
ghost use Rattle.scalars.specs.Inside.{OrderedAs};
ghost use Rattle.bits.specs.Search.{count};
ghost use Rattle.scalars.specs.Value.{width_of, low_of, value_as};
ghost use Rattle.scalars.specs.While.{holds, upward, next_operand, comparison, all_held};
ghost use Rattle.scalars.specs.Saturate.{saturated, moved, saturating};

// The comparison of a WHILE.
#[derive(Clone, Copy, PartialEq, Eq, Debug)]
pub enum Condition {
    Less,
    LessEqual,
    GreaterEqual,
    Greater,
}

// The bits of `x` in two's complement.
pub fn signed64(x: u64) -> i64
    ensures { result ≡ to_z w64 x }
{
    u64::cast_signed(x)
}

// The bits of `x` in two's complement.
pub fn signed32(x: u32) -> i32
    ensures { result ≡ to_z w32 x }
{
    u32::cast_signed(x)
}

// The bits that stand for `v`.
pub fn bits_of(v: i64) -> u64
    ensures { result ≡ of_z w64 v }
{
    v.cast_unsigned()
}

// The register's low word: `as` takes only what fits.
pub fn low_word(x: u64) -> u32
    ensures { result ≡ low_of w32 x }
{
    (x % 0x1_0000_0000) as u32
}

// Less and less or equal count up, the others down.
pub fn counts_up(condition: Condition) -> bool
    ensures { result ≡ upward condition }
{
    matches!(condition, Condition::Less | Condition::LessEqual)
}

// What an instruction reads of a general register: all of it, or its low word.
trait Operand: Copy + PartialOrd {
    type Signed: Copy + PartialOrd;

    ghost width: { Width };

    // Its bits.
    ghost value: { Self → ℕ };

    // What a signed value stands for.
    ghost number: { Self.Signed → ℤ };

    fn of(register: u64) -> Self
        ensures { value result ≡ low_of width register };

    // The bits in two's complement.
    fn signed(self) -> Self::Signed
        ensures { number result ≡ to_z width (value self) };

    // Incremented by one or decremented, wrapping at the width.
    fn next(self, up: bool) -> Self
        ensures { value result ≡ next_operand width up (value self) };

    // Moved by a count, saturated at the width and extended to 64 bits.
    fn saturated(self, decrement: bool, unsigned: bool, n: u16) -> u64
        ensures { result ≡ of_z w64 (saturated width unsigned (moved decrement (value_as width unsigned (value self)) n)) };

    // Both types are ordered as numbers are.
    ghost ordered: { OrderedAs Self.partial_cmp (λ x. pos (value x)) };

    ghost signed_ordered: { OrderedAs Self.Signed.partial_cmp number };
}

impl Operand for u64 {
    type Signed = i64;

    ghost width = { w64 };

    ghost value = { λ x. x };

    ghost number = { λ z. z };

    ghost ordered = { λ x y. Prim.search rules };

    ghost signed_ordered = { λ x y. Prim.search rules };

    fn of(register: u64) -> u64 {
        register
    }

    fn signed(self) -> i64 {
        signed64(self)
    }

    fn next(self, up: bool) -> u64 {
        if up {
            self.wrapping_add(1)
        } else {
            self.wrapping_sub(1)
        }
    }

    #[tactic(auto, using(crate::proofs::Clamps::stops))]
    fn saturated(self, decrement: bool, unsigned: bool, n: u16) -> u64 {
        let k = u64::from(n);
        match (unsigned, decrement) {
            (true, true) => self.saturating_sub(k),
            (true, false) => self.saturating_add(k),
            (false, true) => bits_of(signed64(self).saturating_sub_unsigned(k)),
            (false, false) => bits_of(signed64(self).saturating_add_unsigned(k)),
        }
    }
}

impl Operand for u32 {
    type Signed = i32;

    ghost width = { w32 };

    ghost value = { λ x. x };

    ghost number = { λ z. z };

    ghost ordered = { λ x y. Prim.search rules };

    ghost signed_ordered = { λ x y. Prim.search rules };

    fn of(register: u64) -> u32 {
        low_word(register)
    }

    fn signed(self) -> i32 {
        signed32(self)
    }

    fn next(self, up: bool) -> u32 {
        if up {
            self.wrapping_add(1)
        } else {
            self.wrapping_sub(1)
        }
    }

    #[tactic(auto, using(crate::proofs::Clamps::stops))]
    fn saturated(self, decrement: bool, unsigned: bool, n: u16) -> u64 {
        let k = u32::from(n);
        match (unsigned, decrement) {
            (true, true) => u64::from(self.saturating_sub(k)),
            (true, false) => u64::from(self.saturating_add(k)),
            (false, true) => bits_of(i64::from(signed32(self).saturating_sub_unsigned(k))),
            (false, false) => bits_of(i64::from(signed32(self).saturating_add_unsigned(k))),
        }
    }
}

// The comparison, where the order of `T` is that of numbers.
fn holds<T: Copy + PartialOrd>(condition: Condition, a: T, b: T) -> bool
    ensures { (x y : ℤ) → T.partial_cmp a b ≡ Some (int_cmp x y) → result ≡ holds condition x y }
{
    match condition {
        Condition::Less => a < b,
        Condition::LessEqual => a <= b,
        Condition::GreaterEqual => a >= b,
        Condition::Greater => a > b,
    }
}

// The comparison of two operands, unsigned or signed.
fn compare<T: Operand>(condition: Condition, unsigned: bool, a: T, b: T) -> bool
    ensures { result ≡ holds condition (value_as T.width unsigned (T.value a)) (value_as T.width unsigned (T.value b)) }
{
    if unsigned {
        return holds(condition, a, b);
    }
    holds(condition, a.signed(), b.signed())
}

// `held` at a width.
fn held_in<T: Operand>(condition: Condition, unsigned: bool, a: u64, b: u64, n: u64) -> u64
    ensures { result ≡ count (all_held (comparison T.width unsigned condition (low_of T.width a) (low_of T.width b))) n }
{
    let up = counts_up(condition);
    let last = T::of(b);
    let mut operand = T::of(a);
    for i in 0..n {
        if !compare(condition, unsigned, operand, last) {
            return i;
        }
        operand = operand.next(up);
    }
    n
}

// How many of `n` comparisons of a WHILE hold, each with all earlier ones.
pub fn held(condition: Condition, unsigned: bool, wide: bool, a: u64, b: u64, n: u64) -> u64
    ensures { result ≡ count (all_held (comparison (width_of wide) unsigned condition (low_of (width_of wide) a) (low_of (width_of wide) b))) n }
{
    if wide {
        return held_in::<u64>(condition, unsigned, a, b, n);
    }
    held_in::<u32>(condition, unsigned, a, b, n)
}

// A register moved by a count of elements, saturated at its width and extended to 64 bits.
#[tactic(auto, unfolding(crate::specs::Saturate::saturating))]
pub fn saturate(decrement: bool, unsigned: bool, wide: bool, x: u64, n: u16) -> u64
    ensures { result ≡ saturating (width_of wide) unsigned decrement x n }
{
    if wide {
        return u64::of(x).saturated(decrement, unsigned, n);
    }
    u32::of(x).saturated(decrement, unsigned, n)
}
