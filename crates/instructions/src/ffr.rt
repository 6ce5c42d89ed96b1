// SETFFR and RDFFR under Pg, and the values that WRFFR takes.
ghost use Rattle.std.specs.Prelude.{◌≡◌};
ghost use Rattle.instructions.specs.Effect.{computed};
ghost use Rattle.instructions.specs.Ffr.{setffr_of, rdffr_pg_of, rdffrs_pg_of, accepts as accepts_of};

use super::effect::Computed;
use super::operands::Values;
use bits::Size;
use predicates::Predicate;
use words::Instruction;

// SETFFR.
#[tactic(auto, using(crate::proofs::FfrLaws::live_bits), unfolding(crate::specs::Ffr::setffr_of))]
pub fn setffr(vl: u64) -> Computed
    ensures { result ≡ computed (setffr_of vl) }
{
    Computed::predicate(Predicate::live(vl, Size::B))
}

// RDFFR under Pg.
#[tactic(auto, unfolding(crate::specs::Ffr::under_mask))]
pub fn rdffr_pg(pg: Predicate, ffr: Predicate) -> Computed
    ensures { result ≡ computed (rdffr_pg_of pg ffr) }
{
    Computed::predicate(pg.and(ffr))
}

// RDFFRS under Pg: its flags are by bytes.
#[tactic(auto, unfolding(crate::specs::Ffr::under_mask, crate::specs::Ffr::rdffrs_pg_of))]
pub fn rdffrs_pg(pg: Predicate, ffr: Predicate, vl: u64) -> Computed
    ensures { result ≡ computed (rdffrs_pg_of pg ffr vl) }
{
    Computed::tested(pg.and(ffr), pg, vl)
}

// Whether an instruction takes the values that it reads; WRFFR alone refuses some.
pub fn accepts(i: Instruction, v: Values) -> bool
    ensures { result ≡ accepts_of i v }
{
    match i {
        Instruction::Wrffr { .. } => v.pn.is_monotonic(),
        _ => true,
    }
}
