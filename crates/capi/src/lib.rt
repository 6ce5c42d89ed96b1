// The library as C calls it: include/plokamyr.h declares these functions, and says of each what it answers, in which order it refuses and what it leaves. Replies are numbers.
#![tactic(auto)]

ghost use Rattle.std.specs.Prelude.{map, ◌≡◌, length, replicate, Ok};
ghost use Rattle.replies.specs.Reply.{number_of};
ghost use Rattle.registers.specs.State.{counted};
ghost use Rattle.words.specs.Words.{size_of};
ghost use Rattle.machine.specs.Step.{step_of};
ghost use Rattle.walk.specs.Walk.{refusal_of, walk_of, whole_of};
ghost use Rattle.walk.specs.Demand.{Demand3};
ghost use Rattle.fold.specs.Table.{fold_unit};
ghost use Rattle.fold.specs.Fold.{longest, fold_of, fold_reply};
ghost use Rattle.image.specs.Reading.{read_of, list_after};
ghost use Rattle.image.specs.Writing.{written_of, buffer_after};
ghost use Rattle.transcript.specs.Transcript.{transcript_of, after_all, placed_all};
ghost use Rattle.shared.specs.Shared as Kernels;
ghost use Rattle.capi.specs.Answers.{layout, state_in, SteppedParts, RanParts, walked_as, shared_stepped_as, shared_walked_as, read_as, written_as};
ghost use Rattle.words.specs.Rows.{decoded_reply, decoded_row, encoded_reply, encoded_word};

use registers::parts::Settings;
use registers::{COUNTED, PREDICATES, State};
use replies::Reply;
use shared::{Kernel, Shared};
use walk::Request;

#[repr(C)]
#[derive(Clone, Copy)]
pub struct Ran {
    pub reply: u32,
    pub refused: u32,
    pub done: usize,
}

#[repr(C)]
#[derive(Clone, Copy)]
pub struct Walked {
    pub reply: u32,
    pub count: u64,
    pub visited: usize,
    pub state: State,
}

#[repr(C)]
#[derive(Clone, Copy)]
pub struct SharedStepped {
    pub reply: u32,
    pub shared: Shared,
}

#[repr(C)]
#[derive(Clone, Copy)]
pub struct SharedWalked {
    pub reply: u32,
    pub count: u64,
    pub visited: usize,
    pub shared: Shared,
}

#[repr(C)]
#[derive(Clone, Copy)]
pub struct Reading {
    pub reply: u32,
    pub count: usize,
    pub state: State,
}

#[repr(C)]
#[derive(Clone, Copy)]
pub struct Written {
    pub reply: u32,
    pub length: usize,
}

// A reply's number, as wide as C has it.
fn number(reply: Reply) -> u32
    ensures { result ≡ number_of reply }
{
    u32::from(replies::number(reply))
}

// The number of the layout: of the structs above and of what each function here is handed. Its name bears it, so that a host compiled for another layout does not link.
#[unsafe(no_mangle)]
pub extern "C" fn plokamyr_layout_3() -> u32
    ensures { result ≡ layout }
{
    3
}

// One instruction word, executed on a state's parts where they stand; `p` is P0 to P15 and FFR, `counts` those of P0 to P15. The header's plokamyr_step lends those of a struct.
#[unsafe(no_mangle)]
pub extern "C" fn plokamyr_step_parts(
    vl: u64,
    level: u8,
    access: bool,
    flags: &mut [bool; 4],
    x: &mut [u64; 31],
    p: &mut [[u64; 4]; PREDICATES],
    counts: &mut [[u16; 4]; COUNTED],
    word: u32,
) -> u32
    ensures { SteppedParts result word (state_in vl level access flags.old x.old p.old counts.old)
        (state_in vl level access flags.new x.new p.new counts.new) }
{
    let settings = Settings { vl, level, access };
    number(machine::engine::step(settings, flags, x, p, counts, word))
}

// The words executed one after the other, until one is refused, on a state's parts where they stand.
#[unsafe(no_mangle)]
pub extern "C" fn plokamyr_run_parts(
    vl: u64,
    level: u8,
    access: bool,
    flags: &mut [bool; 4],
    x: &mut [u64; 31],
    p: &mut [[u64; 4]; PREDICATES],
    counts: &mut [[u16; 4]; COUNTED],
    words: &[u32],
) -> Ran
    ensures { RanParts result words.now (state_in vl level access flags.old x.old p.old counts.old)
        (state_in vl level access flags.new x.new p.new counts.new) }
{
    let settings = Settings { vl, level, access };
    let went = machine::engine::run(settings, flags, x, p, counts, words);
    Ran {
        reply: number(went.reply),
        refused: number(went.refused),
        done: went.done,
    }
}

// The state with its counts worked out, and all else as it is.
#[unsafe(no_mangle)]
pub extern "C" fn plokamyr_counted(state: State) -> State
    ensures { result ≡ counted state }
{
    state.counted()
}

// One instruction word, executed on the state where it stands, by way of the step by value.
#[unsafe(no_mangle)]
pub extern "C" fn plokamyr_step_lent(state: &mut State, word: u32) -> u32
    ensures { (result ≡ number_of (step_of state.old word).reply) × (state.new ≡ (step_of state.old word).state) }
{
    number(lent::step(state, word))
}

// The walk from Xn to Xm with lanes Pd and cursor Pk: the positions visited go to the lent list.
#[unsafe(no_mangle)]
pub extern "C" fn plokamyr_walk(
    state: State,
    size: u32,
    n: u32,
    m: u32,
    d: u32,
    k: u32,
    list: &mut [u64],
    budget: u64,
) -> Walked
    ensures value { result ≡ walked_as (walk_of size n m d k budget state list.old) }
    ensures list_after { list.new ≡ (whole_of size n m d k budget state list.old).list }
    ensures demand3 { refusal_of size n m d k state (length list.old) ≡ Ok tt → Demand3 (size_of size) n m d k budget state list.old list.new (walk_of size n m d k budget state list.old) }
{
    let request = Request { size, n, m, d, k };
    let walked = walk::walk(state, request, list, budget);
    Walked {
        reply: number(walked.reply),
        count: walked.count,
        visited: walked.visited,
        state: walked.state,
    }
}

// A title folded in place by the walk, at a vector length.
#[unsafe(no_mangle)]
pub extern "C" fn plokamyr_fold(title: &mut [u16], vl: u64) -> u32
    ensures value { result ≡ number_of (fold_reply vl (length title.old)) }
    ensures title_after { title.new ≡ fold_of vl (replicate longest 0) title.old }
    ensures table { result ≡ 0 → title.new ≡ map fold_unit title.old }
{
    number(fold::fold(title, vl))
}

// One instruction word, executed for one of two kernels on a shared state.
#[unsafe(no_mangle)]
pub extern "C" fn plokamyr_shared_step(shared: Shared, second: bool, word: u32) -> SharedStepped
    ensures { result ≡ shared_stepped_as (Kernels.step_of (Kernels.kernel_of second) shared word) }
{
    let stepped = shared.step(Kernel::of(second), word);
    SharedStepped {
        reply: number(stepped.reply),
        shared: stepped.shared,
    }
}

// The walk of one of two kernels on a shared state.
#[unsafe(no_mangle)]
pub extern "C" fn plokamyr_shared_walk(
    shared: Shared,
    second: bool,
    size: u32,
    n: u32,
    m: u32,
    d: u32,
    k: u32,
    list: &mut [u64],
    budget: u64,
) -> SharedWalked
    ensures value { result ≡ shared_walked_as (Kernels.walk_of (Kernels.kernel_of second) size n m d k budget shared list.old) }
    ensures list_after { list.new ≡ Kernels.list_of (Kernels.kernel_of second) size n m d k budget shared list.old }
    ensures demand3 { Kernels.refusal_of (Kernels.kernel_of second) size n m d k shared (length list.old) ≡ Ok tt → Demand3 (size_of size) n m d k budget (Kernels.state_for (Kernels.kernel_of second) shared) list.old list.new (Kernels.walked_by (Kernels.kernel_of second) (Kernels.walk_of (Kernels.kernel_of second) size n m d k budget shared list.old)) }
{
    let kernel = Kernel::of(second);
    let request = Request { size, n, m, d, k };
    let answer = shared.walk(kernel, request, list, budget);
    SharedWalked {
        reply: number(answer.reply),
        count: answer.count,
        visited: answer.visited,
        shared: answer.shared,
    }
}

// An image's state, with its words put in the lent list.
#[unsafe(no_mangle)]
pub extern "C" fn plokamyr_read(image: &[u8], words: &mut [u32]) -> Reading
    ensures value { result ≡ read_as (read_of (length words.old) image.now) }
    ensures words_after { words.new ≡ list_after image.now words.old }
{
    match image::read(image, words) {
        Ok(reading) => Reading {
            reply: 0,
            count: reading.count,
            state: reading.state,
        },
        Err(refusal) => Reading {
            reply: number(Err(refusal)),
            count: 0,
            state: image::blank(),
        },
    }
}

// The image of a state and words, at the front of the lent buffer.
#[unsafe(no_mangle)]
pub extern "C" fn plokamyr_write(state: State, words: &[u32], image: &mut [u8]) -> Written
    ensures value { result ≡ written_as (written_of state words.now (length image.old)) }
    ensures image_after { image.new ≡ buffer_after state words.now image.old }
{
    match image::write(state, words, image) {
        Ok(length) => Written { reply: 0, length },
        Err(refusal) => Written {
            reply: number(Err(refusal)),
            length: 0,
        },
    }
}

// The lines that the program writes for an image, in the lent buffer; how many bytes they have.
#[unsafe(no_mangle)]
pub extern "C" fn plokamyr_text(image: &[u8], text: &mut [u8]) -> usize
    ensures value { result ≡ after_all (transcript_of 4096 image.now) 0 (length text.old) }
    ensures text_after { text.new ≡ placed_all (transcript_of 4096 image.now) 0 text.old }
{
    let mut words = [0u32; 4096];
    transcript::transcript(image, &mut words, text)
}

// The instruction that a word is, as a row.
#[unsafe(no_mangle)]
pub extern "C" fn plokamyr_decode(word: u32, row: &mut [u8; 9]) -> u32
    ensures value { result ≡ decoded_reply word }
    ensures row_after { row.new ≡ decoded_row word row.old }
{
    match words::decode(word) {
        Ok(i) => {
            *row = words::row_of(i);
            0
        }
        Err(refusal) => number(Err(refusal)),
    }
}

// A row's instruction, as a word.
#[unsafe(no_mangle)]
pub extern "C" fn plokamyr_encode(row: &[u8; 9], word: &mut u32) -> u32
    ensures value { result ≡ encoded_reply row.now }
    ensures word_after { word.new ≡ encoded_word row.now word.old }
{
    match words::word_of(*row) {
        Ok(w) => {
            *word = w;
            0
        }
        Err(refusal) => number(Err(refusal)),
    }
}
