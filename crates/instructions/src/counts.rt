// CNTP, INCP, DECP and their saturating forms.
ghost use Rattle.std.specs.Prelude.{◌≡◌};
ghost use Rattle.instructions.specs.Counts.{inc_dec_of, saturating_of, cntp_of};
ghost use Rattle.instructions.specs.Effect.{computed};

use super::effect::Computed;
use bits::Size;
use predicates::Predicate;

// INCP and DECP, by the count that is kept: they wrap.
#[tactic(auto, unfolding(crate::specs::Counts::inc_dec_of))]
pub fn inc_dec(decrement: bool, rdn: u64, n: u16) -> Computed
    ensures { result ≡ computed (inc_dec_of decrement rdn n) }
{
    let n = u64::from(n);
    if decrement {
        return Computed::number(rdn.wrapping_sub(n));
    }
    Computed::number(rdn.wrapping_add(n))
}

// SQINCP, SQDECP, UQINCP and UQDECP, by the count that is kept; the three flags are those of the instruction and of `saturate`.
#[tactic(auto, unfolding(crate::specs::Counts::saturating_of))]
pub fn saturating(decrement: bool, unsigned: bool, wide: bool, rdn: u64, n: u16) -> Computed
    ensures { result ≡ computed (saturating_of decrement unsigned wide rdn n) }
{
    Computed::number(scalars::saturate(decrement, unsigned, wide, rdn, n))
}

// CNTP: elements true in both predicates.
#[tactic(auto, using(crate::proofs::SearchLaws::both_active), unfolding(crate::specs::Counts::cntp_of))]
pub fn cntp(size: Size, pg: Predicate, pn: Predicate, vl: u64) -> Computed
    ensures { result ≡ computed (cntp_of size pg pn vl) }
{
    Computed::number(pg.and(pn).count_active(vl, size))
}
