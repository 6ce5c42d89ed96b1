// The machine: one step and a run of steps, over a state by value and (`engine`) over lent registers, with one meaning.
// A step refuses in this order: 4 the state is illegal, 1 or 13 the word is none of ours, 2 the level is below the form's, 3 access is off, 14 WRFFR's Pn is no run of ones from bit 0; a refusal
// leaves the state as it was.
// An accepted word executes its instruction: all registers are read before any is written, and nothing else is touched. A run answers for itself 0, or 4, and names the
// reply to the word it stopped at.
#![tactic(auto)]

ghost use Rattle.std.specs.Prelude.{◌≡◌};
ghost use Rattle.machine.specs.Step.{admission_of, step_of, run_of};

pub mod engine;

use registers::State;
use replies::{Refusal, Reply};
use words::Instruction;

#[derive(Clone, Copy)]
pub struct Stepped {
    pub reply: Reply,
    pub state: State,
}

// How many words were executed, the reply to the one after them, and the state that they left. The run's own reply is 0, or 4 for an illegal state.
#[derive(Clone, Copy)]
pub struct Ran {
    pub reply: Reply,
    pub refused: Reply,
    pub done: usize,
    pub state: State,
}

// The register state, handed in and handed back.
#[derive(Clone, Copy)]
pub struct Machine {
    pub state: State,
}

impl Machine {
    // The instruction that a word is, executed; or the state as it was, with the reason. The engine steps the state's parts.
    pub fn step(self, word: u32) -> Stepped
        ensures { result ≡ step_of self.state word }
    {
        let state = self.state;
        let settings = state.settings();
        let mut flags = registers::parts::bits_of_flags(state.flags);
        let mut x = state.x;
        let mut p = registers::parts::words_of(state.p);
        let mut counts = registers::parts::numbers_of(state.counts);
        if let Err(refusal) = engine::step(
            settings,
            &mut flags,
            &mut x,
            &mut p,
            &mut counts,
            word,
        ) {
            // The given state: its parts put together would be the same, and slower.
            return Stepped {
                reply: Err(refusal),
                state,
            };
        }
        Stepped {
            reply: Ok(()),
            state: registers::parts::state_of(settings, flags, x, p, counts),
        }
    }

    // The words stepped one after the other, until one is refused. The engine runs on the state's parts.
    pub fn run(self, words: &[u32]) -> Ran
        ensures { result ≡ run_of self.state words.now }
    {
        let state = self.state;
        let settings = state.settings();
        let mut flags = registers::parts::bits_of_flags(state.flags);
        let mut x = state.x;
        let mut p = registers::parts::words_of(state.p);
        let mut counts = registers::parts::numbers_of(state.counts);
        let went = engine::run(settings, &mut flags, &mut x, &mut p, &mut counts, words);
        Ran {
            reply: went.reply,
            refused: went.refused,
            done: went.done,
            state: registers::parts::state_of(settings, flags, x, p, counts),
        }
    }
}

// The refusals 2, 3 and 14, in this order.
fn admission(i: Instruction, level: u8, access: bool, accepted: bool) -> Reply
    ensures { result ≡ admission_of i level access accepted }
{
    if level < words::level(i) {
        return Err(Refusal::LevelTooLow);
    }
    if !access {
        return Err(Refusal::AccessOff);
    }
    if !accepted {
        return Err(Refusal::NotMonotonic);
    }
    Ok(())
}
