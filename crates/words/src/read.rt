// Reading a word: for each form, in the order of the table, a test of the bits that it fixes, and a cut of its fields.
ghost use Rattle.std.specs.Prelude.{◌≡◌, ◌<◌, ◌≤◌, eqb, bit_and, drop};
ghost use Rattle.words.specs.Layout.{slice};
ghost use Rattle.words.specs.Words.{while_one_form, while_pair_form, while_counter_form, saturating_form, inc_dec_form, cntp_form, cntp_counter_form, pnext_form, pfirst_form, ptest_form, pfalse_form, logic_form, setffr_form, wrffr_form, rdffr_form, rdffr_pg_form, rdffrs_pg_form, condition_of, size_of, operation_bits, operation_of, flag, forms, instruction_in, has_opcode, reads, read_by, decode_of};

use super::{Instruction, Operation, Target};
use bits::Size;
use replies::Refusal;
use scalars::Condition;

// Size 00 to 11; a larger number is taken for 11.
pub fn size_of(n: u32) -> Size
    ensures { result ≡ size_of n }
{
    match n {
        0 => Size::B,
        1 => Size::H,
        2 => Size::S,
        _ => Size::D,
    }
}

// By (lt, eq).
fn condition_of(lt: bool, eq: bool) -> Condition
    ensures { result ≡ condition_of lt eq }
{
    match (lt, eq) {
        (true, false) => Condition::Less,
        (true, true) => Condition::LessEqual,
        (false, false) => Condition::GreaterEqual,
        (false, true) => Condition::Greater,
    }
}

// Operations by op, o2 and o3 as one number; a larger number is taken for 111.
fn operation_of(n: u32) -> Operation
    ensures { result ≡ operation_of n }
{
    match n {
        0b000 => Operation::And,
        0b001 => Operation::Bic,
        0b010 => Operation::Eor,
        0b011 => Operation::Sel,
        0b100 => Operation::Orr,
        0b101 => Operation::Orn,
        0b110 => Operation::Nor,
        _ => Operation::Nand,
    }
}

// Under a mask, the bits of a word are these.
fn has_bits(w: u32, mask: u32, bits: u32) -> bool
    ensures { result ≡ eqb (bit_and w mask) bits }
{
    w & mask == bits
}

// The field of a word from bit low up.
fn field(w: u32, low: u32, width: u32) -> u8
    requires { (low < 32) × (width ≤ 8) }
    ensures { result ≡ slice low width w }
{
    ((w >> low) % (1 << width)) as u8
}

fn flag(w: u32, low: u32) -> bool
    requires { low < 32 }
    ensures { result ≡ flag (slice low 1 w) }
{
    (w >> low) % 2 == 1
}

// The size, which each form that has one has at bits 23:22.
fn size_in(w: u32) -> Size
    ensures { result ≡ size_of (slice 22 2 w) }
{
    size_of((w >> 22) % 4)
}

// The fields that the three WHILE forms have at the same places.
fn read_while(w: u32, eq: bool, target: Target) -> Instruction
    ensures { result ≡ Instruction.While (condition_of (flag (slice 10 1 w)) eq) (flag (slice 11 1 w)) target
        (size_of (slice 22 2 w)) (slice 5 5 w) (slice 16 5 w) }
{
    Instruction::While {
        condition: condition_of(flag(w, 10), eq),
        unsigned: flag(w, 11),
        target,
        size: size_in(w),
        rn: field(w, 5, 5),
        rm: field(w, 16, 5),
    }
}

fn read_while_one(w: u32) -> Instruction
    ensures { result ≡ instruction_in while_one_form w }
{
    let target = Target::One {
        wide: flag(w, 12),
        pd: field(w, 0, 4),
    };
    read_while(w, flag(w, 4), target)
}

fn read_while_pair(w: u32) -> Instruction
    ensures { result ≡ instruction_in while_pair_form w }
{
    let target = Target::Pair { pd: field(w, 1, 3) };
    read_while(w, flag(w, 0), target)
}

fn read_while_counter(w: u32) -> Instruction
    ensures { result ≡ instruction_in while_counter_form w }
{
    let target = Target::Counter {
        four: flag(w, 13),
        pnd: field(w, 0, 3),
    };
    read_while(w, flag(w, 3), target)
}

fn read_saturating(w: u32) -> Instruction
    ensures { result ≡ instruction_in saturating_form w }
{
    Instruction::Saturating {
        decrement: flag(w, 17),
        unsigned: flag(w, 16),
        wide: flag(w, 10),
        size: size_in(w),
        pm: field(w, 5, 4),
        rdn: field(w, 0, 5),
    }
}

fn read_inc_dec(w: u32) -> Instruction
    ensures { result ≡ instruction_in inc_dec_form w }
{
    Instruction::IncDec {
        decrement: flag(w, 16),
        size: size_in(w),
        pm: field(w, 5, 4),
        rdn: field(w, 0, 5),
    }
}

fn read_cntp(w: u32) -> Instruction
    ensures { result ≡ instruction_in cntp_form w }
{
    Instruction::Cntp {
        size: size_in(w),
        pg: field(w, 10, 4),
        pn: field(w, 5, 4),
        rd: field(w, 0, 5),
    }
}

fn read_cntp_counter(w: u32) -> Instruction
    ensures { result ≡ instruction_in cntp_counter_form w }
{
    Instruction::CntpCounter {
        four: flag(w, 10),
        size: size_in(w),
        pnn: field(w, 5, 4),
        rd: field(w, 0, 5),
    }
}

fn read_pnext(w: u32) -> Instruction
    ensures { result ≡ instruction_in pnext_form w }
{
    Instruction::Pnext {
        size: size_in(w),
        pv: field(w, 5, 4),
        pdn: field(w, 0, 4),
    }
}

fn read_pfirst(w: u32) -> Instruction
    ensures { result ≡ instruction_in pfirst_form w }
{
    Instruction::Pfirst {
        pg: field(w, 5, 4),
        pdn: field(w, 0, 4),
    }
}

fn read_ptest(w: u32) -> Instruction
    ensures { result ≡ instruction_in ptest_form w }
{
    Instruction::Ptest {
        pg: field(w, 10, 4),
        pn: field(w, 5, 4),
    }
}

fn read_pfalse(w: u32) -> Instruction
    ensures { result ≡ instruction_in pfalse_form w }
{
    Instruction::Pfalse { pd: field(w, 0, 4) }
}

// The bits op, o2 and o3 as one number.
fn operation_bits(w: u32) -> u32
    ensures { result ≡ operation_bits (slice 23 1 w) (slice 9 1 w) (slice 4 1 w) }
{
    ((w >> 23) % 2) * 4 + ((w >> 9) % 2) * 2 + (w >> 4) % 2
}

fn is_logic(w: u32) -> bool
    ensures { result ≡ reads logic_form w }
{
    super::logic_has_word(operation_bits(w), flag(w, 22)) & has_bits(w, 0xFF30C000, 0x25004000)
}

fn read_logic(w: u32) -> Instruction
    ensures { result ≡ instruction_in logic_form w }
{
    Instruction::Logic {
        operation: operation_of(operation_bits(w)),
        flags: flag(w, 22),
        pm: field(w, 16, 4),
        pg: field(w, 10, 4),
        pn: field(w, 5, 4),
        pd: field(w, 0, 4),
    }
}

fn is_setffr(w: u32) -> bool
    ensures { result ≡ reads setffr_form w }
{
    w == 0x252C9000
}

fn read_wrffr(w: u32) -> Instruction
    ensures { result ≡ instruction_in wrffr_form w }
{
    Instruction::Wrffr { pn: field(w, 5, 4) }
}

fn read_rdffr(w: u32) -> Instruction
    ensures { result ≡ instruction_in rdffr_form w }
{
    Instruction::Rdffr { pd: field(w, 0, 4) }
}

fn read_rdffr_pg(w: u32) -> Instruction
    ensures { result ≡ instruction_in rdffr_pg_form w }
{
    Instruction::RdffrPg {
        pg: field(w, 5, 4),
        pd: field(w, 0, 4),
    }
}

fn read_rdffrs_pg(w: u32) -> Instruction
    ensures { result ≡ instruction_in rdffrs_pg_form w }
{
    Instruction::RdffrsPg {
        pg: field(w, 5, 4),
        pd: field(w, 0, 4),
    }
}

// Whether bits 31:24 are those of all our words.
fn has_opcode(w: u32) -> bool
    ensures { result ≡ has_opcode w }
{
    has_bits(w, 0xFF000000, 0x25000000)
}

// The forms that count.
fn decode_count(w: u32) -> Result<Instruction, Refusal>
    ensures { result ≡ read_by (drop 3 forms) w }
{
    if has_bits(w, 0xFF3CFA00, 0x25288800) {
        return Ok(read_saturating(w));
    }
    if has_bits(w, 0xFF3EFE00, 0x252C8800) {
        return Ok(read_inc_dec(w));
    }
    if has_bits(w, 0xFF3FC200, 0x25208000) {
        return Ok(read_cntp(w));
    }
    if has_bits(w, 0xFF3FFA00, 0x25208200) {
        return Ok(read_cntp_counter(w));
    }
    decode_predicate(w)
}

// The forms on predicates alone.
fn decode_predicate(w: u32) -> Result<Instruction, Refusal>
    ensures { result ≡ read_by (drop 7 forms) w }
{
    if has_bits(w, 0xFF3FFE10, 0x2519C400) {
        return Ok(read_pnext(w));
    }
    if has_bits(w, 0xFFFFFE10, 0x2558C000) {
        return Ok(read_pfirst(w));
    }
    if has_bits(w, 0xFFFFC21F, 0x2550C000) {
        return Ok(read_ptest(w));
    }
    if has_bits(w, 0xFFFFFFF0, 0x2518E400) {
        return Ok(read_pfalse(w));
    }
    if is_logic(w) {
        return Ok(read_logic(w));
    }
    decode_ffr(w)
}

// The forms on FFR; no other form is ours.
fn decode_ffr(w: u32) -> Result<Instruction, Refusal>
    ensures { result ≡ read_by (drop 12 forms) w }
{
    if is_setffr(w) {
        return Ok(Instruction::Setffr);
    }
    if has_bits(w, 0xFFFFFE1F, 0x25289000) {
        return Ok(read_wrffr(w));
    }
    if has_bits(w, 0xFFFFFFF0, 0x2519F000) {
        return Ok(read_rdffr(w));
    }
    if has_bits(w, 0xFFFFFE10, 0x2518F000) {
        return Ok(read_rdffr_pg(w));
    }
    if has_bits(w, 0xFFFFFE10, 0x2558F000) {
        return Ok(read_rdffrs_pg(w));
    }
    // Two returns: one, with a reply that is computed before it, would slow the reading of every word.
    if has_opcode(w) {
        return Err(Refusal::UnsupportedForm);
    }
    Err(Refusal::ForeignWord)
}

// The instruction that a word is: the forms are tested in the order of the table, a few in each function.
pub fn decode(word: u32) -> Result<Instruction, Refusal>
    ensures { result ≡ decode_of word }
{
    if has_bits(word, 0xFF20E000, 0x25200000) {
        return Ok(read_while_one(word));
    }
    if has_bits(word, 0xFF20F010, 0x25205010) {
        return Ok(read_while_pair(word));
    }
    if has_bits(word, 0xFF20D010, 0x25204010) {
        return Ok(read_while_counter(word));
    }
    decode_count(word)
}
