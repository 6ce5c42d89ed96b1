// A title folded in place: letters without their accents, and small. The walk lists the positions of its units, and the unit at each is folded, once.
// A vector length that is not allowed is refused with 4, then a title of more than 4,096 units with 11; a refusal leaves the title as it was.
#![tactic(auto)]

ghost use Rattle.std.specs.Prelude.{map, ◌≡◌, ◌≤◌, length, replicate, Ok};
ghost use Rattle.fold.specs.Table.{fold_unit};
ghost use Rattle.fold.specs.Fold.{folded_one, folded_first, title_state, title_answer, title_list, longest, fold_of, fold_reply};

use predicates::{Flags, Predicate};
use registers::{COUNTED, PREDICATES, State, X_REGISTERS};
use replies::Reply;
use tally::Counts;
use walk::{Request, Walked};

// What C0 to FF become.
const LETTERS: [u16; 64] = [
    0x61, // C0 À
    0x61, // C1 Á
    0x61, // C2 Â
    0x61, // C3 Ã
    0x61, // C4 Ä
    0x61, // C5 Å
    0xc6, // C6 Æ
    0x63, // C7 Ç
    0x65, // C8 È
    0x65, // C9 É
    0x65, // CA Ê
    0x65, // CB Ë
    0x69, // CC Ì
    0x69, // CD Í
    0x69, // CE Î
    0x69, // CF Ï
    0xd0, // D0 Ð
    0x6e, // D1 Ñ
    0x6f, // D2 Ò
    0x6f, // D3 Ó
    0x6f, // D4 Ô
    0x6f, // D5 Õ
    0x6f, // D6 Ö
    0xd7, // D7 ×
    0xd8, // D8 Ø
    0x75, // D9 Ù
    0x75, // DA Ú
    0x75, // DB Û
    0x75, // DC Ü
    0x79, // DD Ý
    0xde, // DE Þ
    0xdf, // DF ß
    0x61, // E0 à
    0x61, // E1 á
    0x61, // E2 â
    0x61, // E3 ã
    0x61, // E4 ä
    0x61, // E5 å
    0xe6, // E6 æ
    0x63, // E7 ç
    0x65, // E8 è
    0x65, // E9 é
    0x65, // EA ê
    0x65, // EB ë
    0x69, // EC ì
    0x69, // ED í
    0x69, // EE î
    0x69, // EF ï
    0xf0, // F0 ð
    0x6e, // F1 ñ
    0x6f, // F2 ò
    0x6f, // F3 ó
    0x6f, // F4 ô
    0x6f, // F5 õ
    0x6f, // F6 ö
    0xf7, // F7 ÷
    0xf8, // F8 ø
    0x75, // F9 ù
    0x75, // FA ú
    0x75, // FB û
    0x75, // FC ü
    0x79, // FD ý
    0xfe, // FE þ
    0x79, // FF ÿ
];

// A unit of a title: A to Z by their range, C0 to FF by the table above. All else stays.
pub fn fold_unit(u: u16) -> u16
    ensures { result ≡ fold_unit u }
{
    match u {
        0x41..=0x5a => u + 32,
        0xc0..=0xff => LETTERS[usize::from(u - 0xc0)],
        _ => u,
    }
}

// The unit at a position; a position past the end has none.
fn fold_one(title: &mut [u16], at: u64)
    ensures { title.new ≡ folded_one at title.old }
{
    // Not `get_mut`: once its borrow is over, no more is known of a slice than its length.
    let i = at as usize;
    if i < title.len() {
        title[i] = fold_unit(title[i]);
    }
}

// The units at these positions, one after the other.
fn fold_each(title: &mut [u16], positions: &[u64])
    ensures { title.new ≡ folded_first positions.now (length positions.now) title.old }
{
    for &at in positions {
        fold_one(title, at);
    }
}

// What a walk over a title of so many units begins with.
fn title_state(vl: u64, units: u64) -> State
    ensures { result ≡ title_state vl units }
{
    let mut x = [0u64; X_REGISTERS];
    x[1] = units;
    // Not `State::new`, which would count the true elements of sixteen predicates that have none.
    State {
        vl,
        level: 1,
        access: true,
        flags: Flags::of(0),
        x,
        p: [Predicate::none(); PREDICATES],
        counts: [Counts::none(); COUNTED],
    }
}

// The most units of a title.
const LONGEST: usize = 4096;

// Up to so many units a title is short.
const SHORT: usize = 64;

// As many instructions as 4,096 units at VL 128 take, the most of all: 4,096 + 3 * 512 + 2.
const BUDGET: u64 = 5634;

// H elements, from X0 to X1, lanes P0, cursor P1.
const REQUEST: Request = Request {
    size: 1,
    n: 0,
    m: 1,
    d: 0,
    k: 1,
};

// Folds a title by a walk with a lent list, and hands back what the walk answers. The title is indexed by the positions in the list alone.
pub fn fold_in(title: &mut [u16], vl: u64, list: &mut [u64]) -> Walked
    ensures answer { result ≡ title_answer vl (length title.old) list.old }
    ensures places { list.new ≡ title_list vl (length title.old) list.old }
    ensures units { title.new ≡ fold_of vl list.old title.old }
{
    let state = title_state(vl, title.len() as u64);
    let walked = walk::walk(state, REQUEST, list, BUDGET);
    if walked.reply.is_ok() {
        fold_each(title, &list[..walked.visited]);
    }
    walked
}

// Folds a title with a list of N places.
fn fold_listed<const N: usize>(title: &mut [u16], vl: u64) -> Reply
    requires { N ≤ longest }
    ensures answer { result ≡ (title_answer vl (length title.old) (replicate N 0)).reply }
    ensures units { title.new ≡ fold_of vl (replicate N 0) title.old }
{
    let mut list = [0u64; N];
    fold_in(title, vl, &mut list).reply
}

// Folds a title at a vector length.
pub fn fold(title: &mut [u16], vl: u64) -> Reply
    ensures answer { result ≡ fold_reply vl (length title.old) }
    ensures units { title.new ≡ fold_of vl (replicate longest 0) title.old }
    ensures table { result ≡ Ok tt → title.new ≡ map fold_unit title.old }
{
    // A short list for a short title: to clear the long one takes two thirds of the time in which 20 units are folded.
    if title.len() <= SHORT {
        fold_listed::<SHORT>(title, vl)
    } else {
        fold_listed::<LONGEST>(title, vl)
    }
}
