// The replies: what a request is answered with. Nothing refused is `Ok`, of number 0; a refusal has a number of its own, 1 to 15, and all but 12 leave
// the state and lent memory as they were.
#![tactic(auto)]

ghost use Rattle.std.specs.Prelude.{◌≡◌};
ghost use Rattle.replies.specs.Reply.{number_of, refusal_number};

// Why a request is refused, by the paper's numbers.
#[derive(Clone, Copy, Debug, PartialEq, Eq)]
pub enum Refusal {
    // The word's bits 31:24 are not 00100101.
    ForeignWord = 1,
    LevelTooLow = 2,
    AccessOff = 3,
    IllegalState = 4,
    ImageCut = 5,
    NotAllowed = 6,
    TrailingBytes = 7,
    BufferTooSmall = 8,
    FieldPastRange = 9,
    BadWalkRegisters = 10,
    ListTooShort = 11,
    BudgetSpent = 12,
    // The word's bits 31:24 are 00100101, but its form is none of ours.
    UnsupportedForm = 13,
    // WRFFR's operand is not a run of ones from bit 0.
    NotMonotonic = 14,
    // Of two kernels on one register file: the word or walk names a register that is not its own kernel's, or touches FFR.
    NotOwned = 15,
}

impl Refusal {
    pub fn number(self) -> u8
        ensures { result ≡ refusal_number self }
    {
        self as u8
    }
}

// What a request is answered with.
pub type Reply = Result<(), Refusal>;

// The number of a reply; 0 refuses nothing.
pub fn number(reply: Reply) -> u8
    ensures { result ≡ number_of reply }
{
    match reply {
        Ok(()) => 0,
        Err(refusal) => refusal.number(),
    }
}
