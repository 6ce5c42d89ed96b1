// Instructions as rows of nine numbers, as C is given them: the form's, the fields from the highest bit down, zeros.
ghost use Rattle.std.specs.Prelude.{◌≡◌};
ghost use Rattle.bits.specs.Choice.{digit};
ghost use Rattle.bits.specs.Size.{shift};
ghost use Rattle.scalars.specs.While.{upward};
ghost use Rattle.words.specs.Words.{eq_bit, operation_number};
ghost use Rattle.words.specs.Rows.{row_of};

use super::{Instruction, Operation, Target};
use bits::Size;
use scalars::Condition;

fn eq_bit(c: Condition) -> u8
    ensures { result ≡ digit (eq_bit c) }
{
    u8::from(matches!(c, Condition::LessEqual | Condition::Greater))
}

fn size_number(size: Size) -> u8
    ensures { result ≡ shift size }
{
    size as u8
}

// A variant is no type, so the rows of the longest three are made from their fields.
fn while_row(
    condition: Condition,
    unsigned: bool,
    target: Target,
    size: Size,
    rn: u8,
    rm: u8,
) -> [u8; 9]
    ensures { result ≡ row_of (Instruction.While condition unsigned target size rn rm) }
{
    let s = size_number(size);
    let u = u8::from(unsigned);
    let lt = u8::from(scalars::counts_up(condition));
    let eq = eq_bit(condition);
    match target {
        Target::One { wide, pd } => [0, s, rm, u8::from(wide), u, lt, rn, eq, pd],
        Target::Pair { pd } => [1, s, rm, u, lt, rn, pd, eq, 0],
        Target::Counter { four, pnd } => [2, s, rm, u8::from(four), u, lt, rn, eq, pnd],
    }
}

fn saturating_row(
    decrement: bool,
    unsigned: bool,
    wide: bool,
    size: Size,
    pm: u8,
    rdn: u8,
) -> [u8; 9]
    ensures { result ≡ row_of (Instruction.Saturating decrement unsigned wide size pm rdn) }
{
    let s = size_number(size);
    let d = u8::from(decrement);
    let u = u8::from(unsigned);
    [3, s, d, u, u8::from(wide), pm, rdn, 0, 0]
}

fn logic_row(operation: Operation, flags: bool, pm: u8, pg: u8, pn: u8, pd: u8) -> [u8; 9]
    ensures { result ≡ row_of (Instruction.Logic operation flags pm pg pn pd) }
{
    // The bits op, o2 and o3 as one number.
    let n = operation as u8;
    let s = u8::from(flags);
    [11, n / 4 % 2, s, pm, pg, n / 2 % 2, pn, n % 2, pd]
}

// The row of an instruction.
pub fn row_of(i: Instruction) -> [u8; 9]
    ensures { result ≡ row_of i }
{
    match i {
        Instruction::While {
            condition,
            unsigned,
            target,
            size,
            rn,
            rm,
        } => while_row(condition, unsigned, target, size, rn, rm),
        Instruction::Saturating {
            decrement,
            unsigned,
            wide,
            size,
            pm,
            rdn,
        } => saturating_row(decrement, unsigned, wide, size, pm, rdn),
        Instruction::IncDec {
            decrement,
            size,
            pm,
            rdn,
        } => [
            4,
            size_number(size),
            u8::from(decrement),
            pm,
            rdn,
            0,
            0,
            0,
            0,
        ],
        Instruction::Cntp { size, pg, pn, rd } => [5, size_number(size), pg, pn, rd, 0, 0, 0, 0],
        Instruction::CntpCounter {
            four,
            size,
            pnn,
            rd,
        } => [6, size_number(size), u8::from(four), pnn, rd, 0, 0, 0, 0],
        Instruction::Pnext { size, pv, pdn } => [7, size_number(size), pv, pdn, 0, 0, 0, 0, 0],
        Instruction::Pfirst { pg, pdn } => [8, pg, pdn, 0, 0, 0, 0, 0, 0],
        Instruction::Ptest { pg, pn } => [9, pg, pn, 0, 0, 0, 0, 0, 0],
        Instruction::Pfalse { pd } => [10, pd, 0, 0, 0, 0, 0, 0, 0],
        Instruction::Logic {
            operation,
            flags,
            pm,
            pg,
            pn,
            pd,
        } => logic_row(operation, flags, pm, pg, pn, pd),
        Instruction::Setffr => [12, 0, 0, 0, 0, 0, 0, 0, 0],
        Instruction::Wrffr { pn } => [13, pn, 0, 0, 0, 0, 0, 0, 0],
        Instruction::Rdffr { pd } => [14, pd, 0, 0, 0, 0, 0, 0, 0],
        Instruction::RdffrPg { pg, pd } => [15, pg, pd, 0, 0, 0, 0, 0, 0],
        Instruction::RdffrsPg { pg, pd } => [16, pg, pd, 0, 0, 0, 0, 0, 0],
    }
}
