// What an instruction gives.
ghost use Rattle.std.specs.Prelude.{◌≡◌};
ghost use Rattle.bits.specs.declared.Size.TheVariants as Sz;
ghost use Rattle.predicates.specs.Predicate.{active, all_false, elements};
ghost use Rattle.predicates.specs.PredTest.{pred_test};
ghost use Rattle.instructions.specs.Effect.{gives_x, gives_p, gives_pf, computed};

use bits::Size;
use predicates::Predicate;

// A value for each register that an instruction can write, and the flags as the number NZCV: four bytes stored one by one stall the load that follows.
// What it does not give is zero, and is written nowhere.
#[derive(Clone, Copy)]
pub struct Computed {
    pub pd: Predicate,
    pub pd2: Predicate,
    pub rd: u64,
    pub nzcv: u64,
}

impl Computed {
    // Nothing given.
    fn nothing() -> Computed
        ensures { result ≡ record { pd = all_false; pd2 = all_false; rd = 0; nzcv = 0 } }
    {
        let none = Predicate::none();
        Computed {
            pd: none,
            pd2: none,
            rd: 0,
            nzcv: 0,
        }
    }

    // A value for Rd.
    #[tactic(auto, unfolding(predicates::specs::PredTest::nzcv))]
    pub(crate) fn number(rd: u64) -> Computed
        ensures { result ≡ computed (gives_x rd) }
    {
        Computed {
            rd,
            ..Computed::nothing()
        }
    }

    // A predicate for Pd, and flags.
    pub(crate) fn flagged(pd: Predicate, nzcv: u64) -> Computed
        ensures { result ≡ record { pd = pd; pd2 = all_false; rd = 0; nzcv = nzcv } }
    {
        Computed {
            pd,
            nzcv,
            ..Computed::nothing()
        }
    }

    // A predicate for Pd.
    #[tactic(auto, unfolding(predicates::specs::PredTest::nzcv))]
    pub(crate) fn predicate(pd: Predicate) -> Computed
        ensures { result ≡ computed (gives_p pd) }
    {
        Computed::flagged(pd, 0)
    }

    // A predicate for Pd, and its PredTest under Pg, by bytes.
    pub(crate) fn tested(pd: Predicate, pg: Predicate, vl: u64) -> Computed
        ensures { result ≡ computed (gives_pf pd (pred_test (active 0 pg) (active 0 pd) (elements vl Sz.B))) }
    {
        Computed::flagged(pd, predicates::pred_test(pg, pd, vl, Size::B))
    }
}
