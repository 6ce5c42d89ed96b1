// The machine over lent registers: nothing is copied.
ghost use Rattle.std.specs.Prelude.{◌≡◌, Bool, List, Ok};
ghost use Rattle.registers.specs.declared.parts.Settings.{Settings};
ghost use Rattle.registers.specs.Parts.{state_at};
ghost use Rattle.words.specs.Words.{decode_of};
ghost use Rattle.instructions.specs.Effect.{effect_in};
ghost use Rattle.machine.specs.Execute.{values_of, apply};
ghost use Rattle.machine.specs.Step.{after_word, step_of, run_of, answered};

use instructions::{Computed, Registers, Values};
use registers::parts::Settings;
use replies::{Refusal, Reply};
use words::Instruction;

// What the registers hold that an instruction reads.
fn read(x: &[u64], p: &[[u64; 4]], counts: &[[u16; 4]], r: Registers) -> Values
    ensures { (s : Settings) → (f : List Bool) → result ≡ values_of (state_at s f x.now p.now counts.now) r }
{
    let rn = registers::parts::x_at(x, r.rn);
    let rm = registers::parts::x_at(x, r.rm);
    let pg = registers::parts::p_at(p, r.pg);
    let pn = registers::parts::p_at(p, r.pn);
    let pm = registers::parts::p_at(p, r.pm);
    let counts = registers::parts::counts_at(counts, r.pm);
    Values {
        pg,
        pn,
        pm,
        counts,
        rn,
        rm,
    }
}

// An effect, written where the registers stand.
fn write(
    settings: Settings,
    flags: &mut [bool; 4],
    x: &mut [u64],
    p: &mut [[u64; 4]],
    counts: &mut [[u16; 4]],
    r: Registers,
    e: Computed,
)
    ensures { state_at settings flags.new x.new p.new counts.new ≡ apply (state_at settings flags.old x.old p.old counts.old) r (effect_in e) }
{
    registers::parts::put_flags(flags, r.flags, e.nzcv);
    registers::parts::put_x(x, r.rd, e.rd);
    registers::parts::put_p(p, counts, settings.vl, r.pd, e.pd);
    registers::parts::put_p(p, counts, settings.vl, r.pd2, e.pd2);
}

// An instruction that the state may refuse, executed where the registers stand.
fn attempt(
    settings: Settings,
    flags: &mut [bool; 4],
    x: &mut [u64],
    p: &mut [[u64; 4]],
    counts: &mut [[u16; 4]],
    i: Instruction,
) -> Reply
    ensures { answered result (state_at settings flags.new x.new p.new counts.new) ≡ after_word (state_at settings flags.old x.old p.old counts.old) (Ok i) }
{
    let r = instructions::registers_of(i);
    let v = read(x, p, counts, r);
    let accepted = instructions::accepts(i, v);
    super::admission(i, settings.level, settings.access, accepted)?;
    let e = instructions::compute(i, v, settings.vl);
    write(settings, flags, x, p, counts, r, e);
    Ok(())
}

// A step of a state that is known to be legal.
fn next(
    settings: Settings,
    flags: &mut [bool; 4],
    x: &mut [u64],
    p: &mut [[u64; 4]],
    counts: &mut [[u16; 4]],
    word: u32,
) -> Reply
    ensures { answered result (state_at settings flags.new x.new p.new counts.new) ≡ after_word (state_at settings flags.old x.old p.old counts.old) (decode_of word) }
{
    let i = words::decode(word)?;
    attempt(settings, flags, x, p, counts, i)
}

// One step: the reply, with the registers changed where they stand, or as they were if the word is refused.
pub fn step(
    settings: Settings,
    flags: &mut [bool; 4],
    x: &mut [u64],
    p: &mut [[u64; 4]],
    counts: &mut [[u16; 4]],
    word: u32,
) -> Reply
    ensures { answered result (state_at settings flags.new x.new p.new counts.new) ≡ step_of (state_at settings flags.old x.old p.old counts.old) word }
{
    if !registers::parts::is_legal(settings, x, p, counts) {
        return Err(Refusal::IllegalState);
    }
    next(settings, flags, x, p, counts, word)
}

// How a run went: its reply, the reply to the word it stopped at, and how many words were executed.
#[derive(Clone, Copy)]
pub struct Went {
    pub reply: Reply,
    pub refused: Reply,
    pub done: usize,
}

// Words stepped one after the other, until one is refused. Legality is tested once: an instruction keeps it.
pub fn run(
    settings: Settings,
    flags: &mut [bool; 4],
    x: &mut [u64],
    p: &mut [[u64; 4]],
    counts: &mut [[u16; 4]],
    words: &[u32],
) -> Went
    ensures { record { reply = result.reply; refused = result.refused; done = result.done; state = state_at settings flags.new x.new p.new counts.new } ≡ run_of (state_at settings flags.old x.old p.old counts.old) words.now }
{
    if !registers::parts::is_legal(settings, x, p, counts) {
        return Went {
            reply: Err(Refusal::IllegalState),
            refused: Ok(()),
            done: 0,
        };
    }
    for (done, &word) in words.iter().enumerate() {
        if let Err(refusal) = next(settings, flags, x, p, counts, word) {
            return Went {
                reply: Ok(()),
                refused: Err(refusal),
                done,
            };
        }
    }
    Went {
        reply: Ok(()),
        refused: Ok(()),
        done: words.len(),
    }
}
