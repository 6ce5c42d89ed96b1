// PNEXT, PFIRST and PTEST.
ghost use Rattle.std.specs.Prelude.{◌≡◌};
ghost use Rattle.instructions.specs.Effect.{computed};
ghost use Rattle.instructions.specs.Searches.{first_result, pnext_of, pfirst_of, ptest_of};

use super::effect::Computed;
use bits::Size;
use predicates::Predicate;

// PNEXT: `pv` is the mask, `pdn` the predicate that is written.
pub fn pnext(size: Size, pv: Predicate, pdn: Predicate, vl: u64) -> Computed
    ensures { result ≡ computed (pnext_of size pv pdn vl) }
{
    let n = predicates::elements(vl, size);
    let live = Predicate::live(vl, size);
    let e = pv.next_active(size, pdn.and(live).end_element(size), n);
    if n <= e {
        return Computed::flagged(Predicate::none(), predicates::nzcv(false, true, true));
    }
    let flags = predicates::test_only(pv.and(live), e << size.shift());
    Computed::flagged(Predicate::only_element(size, e), flags)
}

fn first(pg: Predicate, pdn: Predicate, vl: u64) -> Predicate
    ensures { result ≡ first_result pg pdn vl }
{
    let e = pg.and(Predicate::live(vl, Size::B)).lowest();
    if e < 256 {
        return pdn.or(Predicate::only(e));
    }
    pdn
}

// PFIRST, by bytes.
#[tactic(auto, unfolding(crate::specs::Searches::pfirst_of))]
pub fn pfirst(pg: Predicate, pdn: Predicate, vl: u64) -> Computed
    ensures { result ≡ computed (pfirst_of pg pdn vl) }
{
    Computed::tested(first(pg, pdn, vl), pg, vl)
}

// PTEST, by bytes.
#[tactic(auto, unfolding(crate::specs::Searches::ptest_of))]
pub fn ptest(pg: Predicate, pn: Predicate, vl: u64) -> Computed
    ensures { result ≡ computed (ptest_of pg pn vl) }
{
    Computed::flagged(
        Predicate::none(),
        predicates::pred_test(pg, pn, vl, Size::B),
    )
}
