// Instruction words: read, written, and the level that each asks.
// The words of the table are ours and no others: any other is refused, with 1 if its bits 31:24 are not 00100101, and with 13 if they are. An instruction with a field past its range,
// or a combination that its form leaves out, is refused with 9. An instruction written as a word reads back as itself, and every word that is taken is written back unchanged.
// Between word and instruction lies a row of nine numbers: the form's, its fields from the highest bit down, zeros.
#![tactic(auto)]

ghost use Rattle.std.specs.Prelude.{◌≡◌};
ghost use Rattle.words.specs.Words.{level_of, logic_has_word};

use bits::Size;
use scalars::Condition;

mod read;
mod row;
mod write;

pub use read::{decode, size_of};
pub use row::row_of;
pub use write::{encode, word_of};

// What a WHILE writes: a predicate, the pair P(2 pd) and P(2 pd + 1), or the counter P(8 + pnd).
#[derive(Clone, Copy, PartialEq, Eq, Debug)]
pub enum Target {
    One { wide: bool, pd: u8 },
    Pair { pd: u8 },
    Counter { four: bool, pnd: u8 },
}

// What predicate logic makes of two bits, by the bits op, o2 and o3 as one number; BIC and ORN invert the second.
#[derive(Clone, Copy, PartialEq, Eq, Debug)]
pub enum Operation {
    And = 0b000,
    Bic = 0b001,
    Eor = 0b010,
    Sel = 0b011,
    Orr = 0b100,
    Orn = 0b101,
    Nor = 0b110,
    Nand = 0b111,
}

#[derive(Clone, Copy, PartialEq, Eq, Debug)]
pub enum Instruction {
    While {
        condition: Condition,
        unsigned: bool,
        target: Target,
        size: Size,
        rn: u8,
        rm: u8,
    },
    Saturating {
        decrement: bool,
        unsigned: bool,
        wide: bool,
        size: Size,
        pm: u8,
        rdn: u8,
    },
    IncDec {
        decrement: bool,
        size: Size,
        pm: u8,
        rdn: u8,
    },
    Cntp {
        size: Size,
        pg: u8,
        pn: u8,
        rd: u8,
    },
    CntpCounter {
        four: bool,
        size: Size,
        pnn: u8,
        rd: u8,
    },
    Pnext {
        size: Size,
        pv: u8,
        pdn: u8,
    },
    Pfirst {
        pg: u8,
        pdn: u8,
    },
    Ptest {
        pg: u8,
        pn: u8,
    },
    Pfalse {
        pd: u8,
    },
    // Logic on predicates; `flags` tells whether it sets them.
    Logic {
        operation: Operation,
        flags: bool,
        pm: u8,
        pg: u8,
        pn: u8,
        pd: u8,
    },
    // The first-fault register: set, written, read, read under a mask without flags and with them.
    Setffr,
    Wrffr {
        pn: u8,
    },
    Rdffr {
        pd: u8,
    },
    RdffrPg {
        pg: u8,
        pd: u8,
    },
    RdffrsPg {
        pg: u8,
        pd: u8,
    },
}

// Whether logic has a word for an operation, given as op, o2 and o3 in one number: SEL has none that sets flags.
fn logic_has_word(operation: u32, flags: bool) -> bool
    ensures { result ≡ logic_has_word operation flags }
{
    !((operation == 0b011) & flags)
}

// The level that an instruction asks.
pub fn level(i: Instruction) -> u8
    ensures { result ≡ level_of i }
{
    match i {
        Instruction::While {
            condition,
            target,
            ..
        } => match target {
            Target::One { .. } => { if scalars::counts_up(condition) { 1 } else { 2 } }
            Target::Pair { .. } | Target::Counter { .. } => 3,
        },
        Instruction::CntpCounter { .. } => 3,
        Instruction::Saturating { .. }
        | Instruction::IncDec { .. }
        | Instruction::Cntp { .. }
        | Instruction::Pnext { .. }
        | Instruction::Pfirst { .. }
        | Instruction::Ptest { .. }
        | Instruction::Pfalse { .. }
        | Instruction::Logic { .. }
        | Instruction::Setffr
        | Instruction::Wrffr { .. }
        | Instruction::Rdffr { .. }
        | Instruction::RdffrPg { .. }
        | Instruction::RdffrsPg { .. } => 1,
    }
}
