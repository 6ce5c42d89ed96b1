// The registers that an instruction reads and writes, and the values that it reads.
ghost use Rattle.std.specs.Prelude.{◌≡◌, true, false};
ghost use Rattle.instructions.specs.Operands.{none, target_of, second_target_of, registers_of};

use predicates::Predicate;
use registers::FFR;
use tally::Counts;
use words::{Instruction, Target};

// The number that stands for no register. No Option: it is past all of them, so a read by it gives zero and a write by it vanishes, with no test of its own.
const NONE: u8 = 255;

// The numbers of registers. Those of numbers are whole words, so that none is packed beside another.
#[derive(Clone, Copy, PartialEq, Eq, Debug)]
pub struct Registers {
    // Read: Rn and Rm; Pg (PNEXT's Pv too), Pn (a Pdn too, and FFR where it is read) and Pm, with its counts.
    pub rn: u64,
    pub rm: u64,
    pub pg: u64,
    pub pn: u64,
    pub pm: u64,
    // Written: Rd, Pd and the second of a pair; and whether the flags are.
    pub rd: u64,
    pub pd: u64,
    pub pd2: u64,
    pub flags: bool,
}

// What the registers hold that an instruction reads, under their names.
#[derive(Clone, Copy)]
pub struct Values {
    pub pg: Predicate,
    pub pn: Predicate,
    pub pm: Predicate,
    // Those that are kept beside Pm.
    pub counts: Counts,
    pub rn: u64,
    pub rm: u64,
}

// No register, and the flags kept.
const NO_REGISTERS: Registers = Registers {
    rn: NONE as u64,
    rm: NONE as u64,
    pg: NONE as u64,
    pn: NONE as u64,
    pm: NONE as u64,
    rd: NONE as u64,
    pd: NONE as u64,
    pd2: NONE as u64,
    flags: false,
};

// WHILE: two numbers are compared, one or two predicates and the flags written.
fn comparing(rn: u8, rm: u8, pd: u64, pd2: u64) -> Registers
    ensures { result ≡ record { rn = rn; rm = rm; pg = none; pn = none; pm = none; rd = none; pd = pd; pd2 = pd2; flags = true } }
{
    Registers {
        rn: u64::from(rn),
        rm: u64::from(rm),
        pd,
        pd2,
        flags: true,
        ..NO_REGISTERS
    }
}

// The forms that write X, and keep the flags.
fn counting(rn: u8, pg: u8, pn: u8, pm: u8, rd: u8) -> Registers
    ensures { result ≡ record { rn = rn; rm = none; pg = pg; pn = pn; pm = pm; rd = rd; pd = none; pd2 = none; flags = false } }
{
    Registers {
        rn: u64::from(rn),
        pg: u64::from(pg),
        pn: u64::from(pn),
        pm: u64::from(pm),
        rd: u64::from(rd),
        ..NO_REGISTERS
    }
}

// The forms on predicates alone.
fn masking(pg: u8, pn: u8, pm: u8, pd: u8, flags: bool) -> Registers
    ensures { result ≡ record { rn = none; rm = none; pg = pg; pn = pn; pm = pm; rd = none; pd = pd; pd2 = none; flags = flags } }
{
    Registers {
        pg: u64::from(pg),
        pn: u64::from(pn),
        pm: u64::from(pm),
        pd: u64::from(pd),
        flags,
        ..NO_REGISTERS
    }
}

fn target_of(t: Target) -> u64
    ensures { result ≡ target_of t }
{
    match t {
        Target::One { pd, .. } => u64::from(pd),
        Target::Pair { pd } => 2 * u64::from(pd),
        Target::Counter { pnd, .. } => 8 + u64::from(pnd),
    }
}

fn second_target_of(t: Target) -> u64
    ensures { result ≡ second_target_of t }
{
    match t {
        Target::Pair { pd } => 2 * u64::from(pd) + 1,
        Target::One { .. } | Target::Counter { .. } => u64::from(NONE),
    }
}

// The registers that an instruction names.
pub fn registers_of(i: Instruction) -> Registers
    ensures { result ≡ registers_of i }
{
    match i {
        Instruction::While {
            target: t,
            rn,
            rm,
            ..
        } => comparing(rn, rm, target_of(t), second_target_of(t)),
        Instruction::Saturating { pm, rdn, .. } | Instruction::IncDec { pm, rdn, .. } => {
            counting(rdn, NONE, NONE, pm, rdn)
        }
        Instruction::Cntp { pg, pn, rd, .. } => counting(NONE, pg, pn, NONE, rd),
        Instruction::CntpCounter { pnn, rd, .. } => counting(NONE, NONE, pnn, NONE, rd),
        Instruction::Pnext { pv, pdn, .. } => masking(pv, pdn, NONE, pdn, true),
        Instruction::Pfirst { pg, pdn } => masking(pg, pdn, NONE, pdn, true),
        Instruction::Ptest { pg, pn } => masking(pg, pn, NONE, NONE, true),
        Instruction::Pfalse { pd } => masking(NONE, NONE, NONE, pd, false),
        Instruction::Logic {
            flags,
            pm,
            pg,
            pn,
            pd,
            ..
        } => masking(pg, pn, pm, pd, flags),
        Instruction::Setffr => masking(NONE, NONE, NONE, FFR, false),
        Instruction::Wrffr { pn } => masking(NONE, pn, NONE, FFR, false),
        Instruction::Rdffr { pd } => masking(NONE, FFR, NONE, pd, false),
        Instruction::RdffrPg { pg, pd } => masking(pg, FFR, NONE, pd, false),
        Instruction::RdffrsPg { pg, pd } => masking(pg, FFR, NONE, pd, true),
    }
}
