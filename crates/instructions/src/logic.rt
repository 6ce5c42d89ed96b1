// Logic on predicates.
ghost use Rattle.std.specs.Prelude.{◌≡◌};
ghost use Rattle.instructions.specs.Effect.{computed};
ghost use Rattle.instructions.specs.Logic.{logic_result, logic_of};

use super::effect::Computed;
use bits::Size;
use predicates::Predicate;
use words::Operation;

// The operation is chosen once, and works on whole words.
fn result(operation: Operation, pg: Predicate, pn: Predicate, pm: Predicate) -> Predicate
    ensures { result ≡ logic_result operation pg pn pm }
{
    let not_pm = pm.complement();
    match operation {
        Operation::And => pg.and(pn.and(pm)),
        Operation::Bic => pg.and(pn.and(not_pm)),
        Operation::Eor => pg.and(pn.xor(pm)),
        Operation::Sel => pg.and(pn).or(pm.and_not(pg)),
        Operation::Orr => pg.and(pn.or(pm)),
        Operation::Orn => pg.and(pn.or(not_pm)),
        Operation::Nor => pg.and_not(pn.or(pm)),
        Operation::Nand => pg.and_not(pn.and(pm)),
    }
}

// `flags` tells whether they are set, by PredTest over bytes under Pg as it was read.
pub fn logic(
    operation: Operation,
    flags: bool,
    pg: Predicate,
    pn: Predicate,
    pm: Predicate,
    vl: u64,
) -> Computed
    ensures { result ≡ computed (logic_of operation flags pg pn pm vl) }
{
    let q = result(operation, pg, pn, pm);
    if !flags {
        return Computed::predicate(q);
    }
    let live = Predicate::live(vl, Size::B);
    Computed::flagged(q, predicates::test_bits(pg.and(live), q))
}
