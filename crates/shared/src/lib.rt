// Two kernels that take turns on one register file. Vector length, level and access are shared; each kernel has its own flags.
// The first owns X0 to X15 and P0 to P7, the second X16 to X30 and P8 to P15; X31 is open to both, FFR to neither.
// A kernel's step or walk is that of an ordinary state with this kernel's flags. One that names a register which is not its own, or touches FFR, is refused with 15:
// a step refuses in the order 4, 1 or 13, 2, 3, 15, a walk in the order 4, 10, 2, 3, 15, 11, 12; a refusal but 12 leaves all as it was.
#![tactic(auto)]

ghost use Rattle.std.specs.Prelude.{◌≡◌, length, Ok};
ghost use Rattle.words.specs.Words.{size_of, decode_of};
ghost use Rattle.walk.specs.Demand.{Demand3};
ghost use Rattle.shared.specs.Inside.{may_step, stands_after, barred};
ghost use Rattle.shared.specs.Ownership.{may_name_x, may_name_p, may_name, may_walk};
ghost use Rattle.shared.specs.Shared.{kernel_of, flags_for, state_for, shared_after, step_of, refusal_of, walk_of, list_of, walked_by};

use instructions::Registers;
use machine::Machine;
use predicates::Flags;
use registers::State;
use replies::{Refusal, Reply};
use walk::Request;

#[derive(Clone, Copy, PartialEq, Eq, Debug)]
pub enum Kernel {
    First,
    Second,
}

// The first kernel's flags are the state's, the second's stand beside it.
#[repr(C)]
#[derive(Clone, Copy)]
pub struct Shared {
    pub state: State,
    pub second: Flags,
}

#[derive(Clone, Copy)]
pub struct Stepped {
    pub reply: Reply,
    pub shared: Shared,
}

// How many instructions were executed, how many positions they visited, and the shared state after them.
#[derive(Clone, Copy)]
pub struct Walked {
    pub reply: Reply,
    pub count: u64,
    pub visited: usize,
    pub shared: Shared,
}

impl Kernel {
    // The second if it is asked for, else the first.
    pub fn of(second: bool) -> Kernel
        ensures { result ≡ kernel_of second }
    {
        if second {
            Kernel::Second
        } else {
            Kernel::First
        }
    }

    // Its own X registers, 31, and what stands for no register: a number past them all.
    fn may_name_x(self, r: u64) -> bool
        ensures { result ≡ may_name_x self r }
    {
        30 < r
            || match self {
                Kernel::First => r < 16,
                Kernel::Second => 15 < r,
            }
    }

    // Its own P registers, and what stands for no register: a number past FFR's, which is 16.
    fn may_name_p(self, r: u64) -> bool
        ensures { result ≡ may_name_p self r }
    {
        if 16 < r {
            return true;
        }
        if r == 16 {
            return false;
        }
        match self {
            Kernel::First => r < 8,
            Kernel::Second => 7 < r,
        }
    }

    // Sources, masks and targets.
    fn may_name(self, r: Registers) -> bool
        ensures { result ≡ may_name self r }
    {
        self.may_name_x(r.rn)
            && self.may_name_x(r.rm)
            && self.may_name_x(r.rd)
            && self.may_name_p(r.pg)
            && self.may_name_p(r.pn)
            && self.may_name_p(r.pm)
            && self.may_name_p(r.pd)
            && self.may_name_p(r.pd2)
    }

    fn may_step(self, word: u32) -> bool
        ensures { result ≡ may_step self (decode_of word) }
    {
        match words::decode(word) {
            Err(_) => true,
            Ok(i) => self.may_name(instructions::registers_of(i)),
        }
    }

    fn may_walk(self, request: Request) -> bool
        ensures { result ≡ may_walk self request.n request.m request.d request.k }
    {
        self.may_name_x(u64::from(request.n))
            && self.may_name_x(u64::from(request.m))
            && self.may_name_p(u64::from(request.d))
            && self.may_name_p(u64::from(request.k))
    }
}

// Whether 15 stands before a reply: it does before 0, 14 and 11.
fn stands_after(r: Reply) -> bool
    ensures { result ≡ stands_after r }
{
    match r {
        Ok(()) => true,
        Err(refusal) => matches!(refusal, Refusal::NotMonotonic | Refusal::ListTooShort),
    }
}

// An ordinary reply where a register is not the kernel's: 15, or the one that stands before it.
fn barred(r: Reply) -> Reply
    ensures { result ≡ barred r }
{
    if stands_after(r) {
        Err(Refusal::NotOwned)
    } else {
        r
    }
}

impl Shared {
    fn flags_for(self, kernel: Kernel) -> Flags
        ensures { result ≡ flags_for kernel self }
    {
        match kernel {
            Kernel::First => self.state.flags,
            Kernel::Second => self.second,
        }
    }

    // The state with a kernel's flags.
    fn state_for(self, kernel: Kernel) -> State
        ensures { result ≡ state_for kernel self }
    {
        self.state.with_flags(self.flags_for(kernel))
    }

    // The registers that a kernel leaves, and its flags in their place.
    fn after(self, kernel: Kernel, state: State) -> Shared
        ensures { result ≡ shared_after kernel self state }
    {
        match kernel {
            Kernel::First => Shared {
                state,
                second: self.second,
            },
            Kernel::Second => Shared {
                state: state.with_flags(self.state.flags),
                second: state.flags,
            },
        }
    }

    // The instruction that a word is, executed for a kernel; or all as it was, with the reason.
    pub fn step(self, kernel: Kernel, word: u32) -> Stepped
        ensures { result ≡ step_of kernel self word }
    {
        let state = self.state_for(kernel);
        let stepped = Machine { state }.step(word);
        if !kernel.may_step(word) {
            return Stepped {
                reply: barred(stepped.reply),
                shared: self,
            };
        }
        Stepped {
            reply: stepped.reply,
            shared: self.after(kernel, stepped.state),
        }
    }

    // A kernel's walk from Xn to Xm with lanes Pd and cursor Pk: each position visited goes to the next place of `list`.
    pub fn walk(self, kernel: Kernel, request: Request, list: &mut [u64], budget: u64) -> Walked
        ensures answer { result ≡ walk_of kernel request.size request.n request.m request.d request.k budget self list.old }
        ensures places { list.new ≡ list_of kernel request.size request.n request.m request.d request.k budget self list.old }
        ensures demand { refusal_of kernel request.size request.n request.m request.d request.k self (length list.old) ≡ Ok tt → Demand3 (size_of request.size) request.n request.m request.d request.k budget (state_for kernel self) list.old list.new (walked_by kernel result) }
    {
        let state = self.state_for(kernel);
        if !kernel.may_walk(request) {
            let reply = walk::refusal(state, request, list.len());
            return Walked {
                reply: barred(reply),
                count: 0,
                visited: 0,
                shared: self,
            };
        }
        let walked = walk::walk(state, request, list, budget);
        Walked {
            reply: walked.reply,
            count: walked.count,
            visited: walked.visited,
            shared: self.after(kernel, walked.state),
        }
    }
}
