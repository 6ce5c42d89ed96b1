// One step over a lent state, changed where it stands, with the meaning and the refusals of the step by value; a refusal leaves the state as it was.
#![tactic(auto)]

ghost use Rattle.std.specs.Prelude.{◌≡◌};
ghost use Rattle.machine.specs.Step.{step_of};

use machine::Machine;
use registers::State;
use replies::Reply;

// The reply; the state is changed where it stands, and is as it was if the word is refused.
pub fn step(s: &mut State, word: u32) -> Reply
    ensures { (result ≡ (step_of s.old word).reply) × (s.new ≡ (step_of s.old word).state) }
{
    let stepped = Machine { state: *s }.step(word);
    *s = stepped.state;
    stepped.reply
}
