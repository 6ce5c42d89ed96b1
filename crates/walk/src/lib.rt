// The walk: PFALSE Pk, then WHILELO Pd from Xn to Xm, PNEXT Pk through Pd, INCP Xn by Pd, repeated until no lane is left. Each instruction acts as a step executes it.
// It refuses in this order: 4, 10, 2 (level 0), 3, 11; these change nothing. It is done exactly when the budget is at least D + 3R + 2; with less it answers 12, with the state after exactly
// budget instructions and the positions written by then. Positions are written from the list's first place on; every other place stays.
#![tactic(auto)]

ghost use Rattle.std.specs.Prelude.{◌≡◌, ◌<◌, ◌+◌, ◌^◌, ◌==◌, not, false, length, Ok, Err};
ghost use Rattle.bits.specs.Search.{first_from, after_last};
ghost use Rattle.bits.specs.Size.{shift};
ghost use Rattle.predicates.specs.Predicate.{bit_at, touched};
ghost use Rattle.bits.specs.Choice.{pick};
ghost use Rattle.replies.specs.declared.Refusal.TheVariants.{BudgetSpent};
ghost use Rattle.words.specs.Words.{size_of};
ghost use Rattle.walk.specs.Walk.{plain_walk, walked, bad_registers, refusal_of, whole_of, walk_of};
ghost use Rattle.walk.specs.Demand.{Demand3};

use bits::Size;
use predicates::{Flags, Predicate};
use registers::State;
use replies::{Refusal, Reply};
use scalars::Condition;

// The instruction to come.
#[derive(Clone, Copy, PartialEq, Eq, Debug)]
pub enum Phase {
    Pfalse,
    Whilelo,
    Pnext,
    Incp,
}

// How many instructions were executed, how many positions they visited, and the state after them.
#[derive(Clone, Copy)]
pub struct Walked {
    pub reply: Reply,
    pub count: u64,
    pub visited: usize,
    pub state: State,
}

// What a walk is of: the element size by its number, Xn and Xm, the lanes Pd and the cursor Pk.
#[derive(Clone, Copy)]
pub struct Request {
    pub size: u32,
    pub n: u32,
    pub m: u32,
    pub d: u32,
    pub k: u32,
}

impl Request {
    #[tactic(auto, unfolding(crate::specs::Walk::bad_registers))]
    fn is_bad(self) -> bool
        ensures { result ≡ bad_registers self.size self.n self.m self.d self.k }
    {
        self.n > 31
            || self.m > 31
            || self.d > 15
            || self.k > 15
            || self.size > 3
            || self.n == 31
            || self.n == self.m
            || self.d == self.k
    }
}

// The first refusal that applies, or none.
#[tactic(auto, unfolding(crate::specs::Walk::refusal_of))]
pub fn refusal(state: State, request: Request, places: usize) -> Reply
    ensures { result ≡ refusal_of request.size request.n request.m request.d request.k state places }
{
    if !state.is_legal() {
        return Err(Refusal::IllegalState);
    }
    if request.is_bad() {
        return Err(Refusal::BadWalkRegisters);
    }
    if state.level == 0 {
        return Err(Refusal::LevelTooLow);
    }
    if !state.access {
        return Err(Refusal::AccessOff);
    }
    // X is read where it stands: `read_x` takes the state by value, and it would be copied.
    let start = registers::parts::x_at(&state.x, u64::from(request.n));
    let limit = registers::parts::x_at(&state.x, u64::from(request.m));
    if (places as u64) < limit.saturating_sub(start) {
        return Err(Refusal::ListTooShort);
    }
    Ok(())
}

fn answer(ended: bool, count: u64, visited: usize, state: State) -> Walked
    ensures { result ≡ record { reply = pick ended (Ok tt) (Err BudgetSpent); count = count; visited = visited; state = state } }
{
    Walked {
        reply: if ended {
            Ok(())
        } else {
            Err(Refusal::BudgetSpent)
        },
        count,
        visited,
        state,
    }
}

// What PNEXT needs of a round: the lowest bit of its lanes and the end of their bits, for the flags, and the element from which it searches.
#[derive(Clone, Copy)]
struct Round {
    low: u64,
    end: u64,
    next: u64,
}

impl Round {
    // Of lanes and a cursor below the vector's end.
    fn of(lanes: Predicate, cursor: Predicate, size: Size) -> Round
        ensures { result ≡ record { low = first_from (bit_at lanes) 0 256; end = after_last (bit_at lanes) 256; next = after_last (touched (shift size) cursor) 256 } }
    {
        Round {
            low: lanes.lowest(),
            end: lanes.after_highest(),
            next: cursor.end_element(size),
        }
    }

    // PNEXT's flags at a lane of this lowest bit.
    fn flags_at(self, bit: u64) -> Flags
        requires { bit + 1 < 2 ^ 64 }
        ensures { result ≡ record { n = self.low == bit; z = false; c = not (self.end == bit + 1); v = false } }
    {
        Flags {
            n: self.low == bit,
            z: false,
            c: self.end != bit + 1,
            v: false,
        }
    }
}

// PNEXT's flags where it finds no lane.
const NONE_LEFT: Flags = Flags {
    n: false,
    z: true,
    c: true,
    v: false,
};

// The walk past its refusals, one instruction a turn. What it writes (Xn, Pd, Pk and the flags) is held apart, and put in the state at the end.
// One loop over the phases, which counts instructions by hand: it is the hot path, and its count is what the budget bounds and the answer carries.
fn plain(start: State, request: Request, list: &mut [u64], budget: u64) -> Walked
    requires { refusal_of request.size request.n request.m request.d request.k start (length list.old) ≡ Ok tt }
    ensures answer { result ≡ walked (plain_walk (size_of request.size) request.n request.m request.d request.k budget start list.old) }
    ensures places { list.new ≡ (plain_walk (size_of request.size) request.n request.m request.d request.k budget start list.old).list }
{
    let n = u64::from(request.n);
    let d = u64::from(request.d);
    let k = u64::from(request.k);
    let size = words::size_of(request.size);
    let elements = predicates::elements(start.vl, size);
    let live = Predicate::live(start.vl, size);
    let limit = start.read_x(u64::from(request.m));
    let mut x = start.read_x(n);
    let mut lanes = start.read_p(d);
    let mut cursor = start.read_p(k);
    let mut flags = start.flags;
    let mut round = Round {
        low: 0,
        end: 0,
        next: 0,
    };
    let mut phase = Phase::Pfalse;
    let mut ended = false;
    let mut visited: usize = 0;
    let mut count: u64 = 0;
    while count < budget && !ended {
        match phase {
            Phase::Pfalse => {
                cursor = Predicate::none();
                phase = Phase::Whilelo;
            }
            Phase::Whilelo => {
                let held = scalars::held(Condition::Less, true, true, x, limit, elements);
                lanes = Predicate::first(size, held);
                flags = Flags::of(instructions::while_flags(true, held, elements));
                ended = held == 0;
                round = Round::of(lanes.and(live), cursor.and(live), size);
                phase = Phase::Pnext;
            }
            Phase::Pnext => {
                let e = lanes.next_active(size, round.next, elements);
                if elements <= e {
                    cursor = Predicate::none();
                    flags = NONE_LEFT;
                    phase = Phase::Incp;
                } else {
                    cursor = Predicate::only_element(size, e);
                    flags = round.flags_at(e << size.shift());
                    list[visited] = x.wrapping_add(e);
                    visited += 1;
                    round.next = e + 1;
                }
            }
            Phase::Incp => {
                x = x.wrapping_add(lanes.and(live).count());
                phase = Phase::Whilelo;
            }
        }
        count += 1;
    }
    let state = start.with_x(n, x).with_p(d, lanes).with_p(k, cursor);
    answer(ended, count, visited, state.with_flags(flags))
}

// The walk from Xn to Xm with lanes Pd and cursor Pk: each position visited goes to the next place of `list`.
pub fn walk(state: State, request: Request, list: &mut [u64], budget: u64) -> Walked
    ensures answer { result ≡ walk_of request.size request.n request.m request.d request.k budget state list.old }
    ensures places { list.new ≡ (whole_of request.size request.n request.m request.d request.k budget state list.old).list }
    ensures demand { refusal_of request.size request.n request.m request.d request.k state (length list.old) ≡ Ok tt → Demand3 (size_of request.size) request.n request.m request.d request.k budget state list.old list.new result }
{
    if let Err(refusal) = refusal(state, request, list.len()) {
        return Walked {
            reply: Err(refusal),
            count: 0,
            visited: 0,
            state,
        };
    }
    plain(state, request, list, budget)
}
