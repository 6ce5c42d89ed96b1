// What each instruction does: which registers it names, and what it gives from the values of those that it reads and the vector length.
// An effect is values alone: `registers_of` says where they are written, so that an instruction touches nothing else. PFALSE, logic without S, everything that writes X, and of the forms on FFR all but RDFFRS keep the flags.
#![tactic(auto)]

ghost use Rattle.std.specs.Prelude.{◌≡◌};
ghost use Rattle.instructions.specs.Effect.{computed};
ghost use Rattle.instructions.specs.Instructions.{while_of, compute_of};

mod counter;
mod counts;
mod effect;
mod ffr;
mod logic;
mod operands;
mod searches;
mod whiles;

use bits::Size;
pub use effect::Computed;
pub use ffr::accepts;
pub use operands::{Registers, Values, registers_of};
use predicates::Predicate;
use whiles::Comparison;
pub use whiles::while_flags;
use words::{Instruction, Target};

// What an instruction gives. WRFFR and RDFFR have an arm each: one for both is tested apart from the others, and slows them.
#[tactic(auto, unfolding(crate::specs::Instructions::compute_of))]
pub fn compute(i: Instruction, v: Values, vl: u64) -> Computed
    ensures { result ≡ computed (compute_of i v vl) }
{
    match i {
        Instruction::While {
            condition,
            unsigned,
            target,
            size,
            ..
        } => while_target(Comparison::of(condition, unsigned, v), target, size, vl),
        Instruction::Saturating {
            decrement,
            unsigned,
            wide,
            size,
            ..
        } => counts::saturating(decrement, unsigned, wide, v.rn, v.counts.at(size)),
        Instruction::IncDec {
            decrement,
            size,
            ..
        } => counts::inc_dec(decrement, v.rn, v.counts.at(size)),
        Instruction::Cntp { size, .. } => counts::cntp(size, v.pg, v.pn, vl),
        Instruction::CntpCounter { four, size, .. } => counter::cntp_counter(four, size, v.pn, vl),
        Instruction::Pnext { size, .. } => searches::pnext(size, v.pg, v.pn, vl),
        Instruction::Pfirst { .. } => searches::pfirst(v.pg, v.pn, vl),
        Instruction::Ptest { .. } => searches::ptest(v.pg, v.pn, vl),
        Instruction::Pfalse { .. } => Computed::predicate(Predicate::none()),
        Instruction::Logic {
            operation,
            flags,
            ..
        } => logic::logic(operation, flags, v.pg, v.pn, v.pm, vl),
        Instruction::Setffr => ffr::setffr(vl),
        Instruction::Wrffr { .. } => Computed::predicate(v.pn),
        Instruction::Rdffr { .. } => Computed::predicate(v.pn),
        Instruction::RdffrPg { .. } => ffr::rdffr_pg(v.pg, v.pn),
        Instruction::RdffrsPg { .. } => ffr::rdffrs_pg(v.pg, v.pn, vl),
    }
}

fn while_target(compared: Comparison, target: Target, size: Size, vl: u64) -> Computed
    ensures { result ≡ computed (while_of compared.condition compared.unsigned target size compared.rn compared.rm vl) }
{
    match target {
        Target::One { wide, .. } => whiles::while_one(compared, wide, size, vl),
        Target::Pair { .. } => whiles::while_pair(compared, size, vl),
        Target::Counter { four, .. } => counter::while_counter(compared, four, size, vl),
    }
}
