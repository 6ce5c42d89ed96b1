// Holds the library to stored vectors that a second program made: records on standard input, each with a kind (1 byte), the length of its
// rest (4 bytes), and its rest. Numbers are little-endian; an image stands behind its length (4 bytes).
#![tactic(auto)]

ghost use Rattle.std.specs.Prelude.{true, [], ◌≡◌, ◌≤◌, ◌<◌, length, get_or, IsSome, IfSome};
ghost use Rattle.octets.specs.Bytes.{value, parts};
ghost use Rattle.predicates.specs.PredTest.{flags_of};
ghost use Rattle.image.specs.Image.{image_of};
ghost use Rattle.vectors.specs.Records.{block as block_of, past_block, Reads, RunAgrees, ImageAgrees, Walks, WalkAgrees, turn_of, StepAgrees, TitleFolds, TitleAgrees, kind_number, Agrees};

use image::{Reading, sections};
use machine::Machine;
use predicates::Flags;
use registers::State;
use shared::{Kernel, Shared, Stepped};
use std::io::{Input, Read};
use std::{fmt, io};
use walk::Request;

// The most places of a list.
const PLACES: usize = 512;
// The most units of a title: one more than may be folded.
const UNITS: usize = 4097;

// What the rest of a record is. `Kind::of` has the kinds' numbers.
#[derive(Clone, Copy, PartialEq, Eq, Debug)]
enum Kind {
    // The image of a state and words; the reply (1 byte), the refused word's reply (1), the number of words done (4), the image of the state after.
    Run,
    // The reply (1 byte), an image, damaged or not, and the image that it is written back as, empty if it is refused.
    Image,
    // The image of a state; size, n, m, d, k (1 byte each), places (4), budget (8), reply (1), count (8), visited (4); the image of the state
    // after, and the list after (8 bytes a place).
    Walk,
    // The image of a state and a word; which of two kernels steps (1 byte: 1 for the second, else 0), the second's flags (1: NZCV), the reply
    // (1), the second's flags after (1), the image of the state after.
    Step,
    // A vector length (8 bytes), how many units a title has (4), the reply (1), the title and the title after, 2 bytes a unit.
    Title,
}

impl Kind {
    // The kind of this number, if one has it.
    fn of(byte: u8) -> Option<Kind>
        ensures number { IfSome result (λ kind. kind_number kind ≡ byte) }
        ensures known { 0 < byte → byte ≤ 5 → IsSome result }
    {
        match byte {
            1 => Some(Kind::Run),
            2 => Some(Kind::Image),
            3 => Some(Kind::Walk),
            4 => Some(Kind::Step),
            5 => Some(Kind::Title),
            _ => None,
        }
    }
}

// More bytes than the input may have.
const ROOM: usize = 920_000;

// How many records of a kind there were, and how many of them agree.
#[derive(Clone, Copy, Default)]
struct Score {
    agree: u64,
    all: u64,
}

// The scores of all kinds.
#[derive(Clone, Copy, Default)]
struct Tally {
    runs: Score,
    images: Score,
    walks: Score,
    steps: Score,
    titles: Score,
}

fn main(rt: HostRuntime) -> io::Result<()> {
    judge(&rt, [0; ROOM])
}

// Reads into the bytes handed in.
fn judge(rt: &(impl Input + Print), mut bytes: [u8; ROOM]) -> io::Result<()> {
    let length = io::copy(&mut rt.reader().take(ROOM as u64), &mut &mut bytes[..])? as usize;
    if length == ROOM {
        return rt.println("the input is too long");
    }
    let tally = compare(rt, octets::first(&bytes, length))?;
    println!(rt; "runs {}", tally.runs)?;
    println!(rt; "images {}", tally.images)?;
    println!(rt; "walks {}", tally.walks)?;
    println!(rt; "steps {}", tally.steps)?;
    println!(rt; "titles {}", tally.titles)
}

// The records one after the other, to the end or to the first that is malformed. By hand: a record's length stands in it.
fn compare(rt: &impl Print, bytes: &[u8]) -> io::Result<Tally> {
    let mut tally = Tally::default();
    let mut number: u64 = 0;
    let mut left = bytes;
    while let [byte, record @ ..] = left {
        number = number.saturating_add(1);
        let Some(kind) = Kind::of(*byte).filter(|kind| is_whole(*kind, record)) else {
            println!(rt; "record {number} is malformed")?;
            return Ok(tally);
        };
        let agrees = holds(kind, block(record));
        if !agrees {
            println!(rt; "record {number} differs")?;
        }
        tally.score(kind).count(agrees);
        left = past_block(record);
    }
    Ok(tally)
}

impl fmt::Display for Score {
    fn fmt<W: fmt::Write>(&self, f: &mut fmt::Formatter<W>) -> fmt::Result {
        write!(f, "{} of {}", self.agree, self.all)
    }
}

impl Score {
    // A count stops at the largest number, which no count of records reaches.
    fn count(&mut self, agrees: bool) {
        self.all = self.all.saturating_add(1);
        self.agree = self.agree.saturating_add(u64::from(agrees));
    }
}

impl Tally {
    fn score(&mut self, kind: Kind) -> &mut Score {
        match kind {
            Kind::Run => &mut self.runs,
            Kind::Image => &mut self.images,
            Kind::Walk => &mut self.walks,
            Kind::Step => &mut self.steps,
            Kind::Title => &mut self.titles,
        }
    }
}

// A block is a length in four bytes, read as the count of a section, and then so many bytes.

fn has_block(bs: &[u8]) -> bool {
    4 <= bs.len() && sections::count_of(bs) <= bs.len() - 4
}

fn block(bs: &[u8]) -> &[u8]
    ensures { result.now ≡ block_of bs.now }
{
    octets::first(octets::after(bs, 4), sections::count_of(bs))
}

fn past_block(bs: &[u8]) -> &[u8]
    ensures { result.now ≡ past_block bs.now }
{
    octets::after(octets::after(bs, 4), sections::count_of(bs))
}

// Whether a record's parts fill it.
fn is_whole(kind: Kind, record: &[u8]) -> bool {
    let rest = block(record);
    has_block(record)
        && match kind {
            Kind::Run => past_images(rest, 6) == Some(0),
            Kind::Image => past_images(octets::after(rest, 1), 0) == Some(0),
            Kind::Walk => {
                let places = octets::number_at(past_block(rest), 5, 4) as usize;
                places <= PLACES && past_images(rest, 30) == Some(places * 8)
            }
            Kind::Step => past_images(rest, 4) == Some(0),
            Kind::Title => {
                let units = octets::number_at(rest, 8, 4) as usize;
                units <= UNITS && rest.len() == units * 4 + 13
            }
        }
}

// How many bytes there are past a block, n bytes and a second block, if these are whole.
fn past_images(bs: &[u8], n: usize) -> Option<usize> {
    let between = past_block(bs);
    let second = octets::after(between, n);
    if has_block(bs) && n <= between.len() && has_block(second) {
        Some(past_block(second).len())
    } else {
        None
    }
}

// Whether the library answers a record as it says.
fn holds(kind: Kind, rest: &[u8]) -> bool
    ensures { result ≡ true → Agrees (kind_number kind) rest.now }
{
    match kind {
        Kind::Run => run_agrees(rest),
        Kind::Image => image_agrees(rest),
        Kind::Walk => walk_agrees(rest),
        Kind::Step => step_agrees(rest),
        Kind::Title => title_agrees(rest),
    }
}

// The state and the number of words of an image that is read without a fault; its words are put in the lent list.
#[tactic(auto, using(crate::proofs::Answers::reads_if))]
fn read_whole(image: &[u8], words: &mut [u32; 4096]) -> Option<Reading>
    ensures { IfSome result (Reads image.now words.new) }
{
    image::read(image, words).ok()
}

fn run_agrees(rest: &[u8]) -> bool
    ensures { result ≡ true → RunAgrees rest.now }
{
    let mut words = [0; 4096];
    let Some(Reading { state, count }) = read_whole(block(rest), &mut words) else {
        return false;
    };
    let ran = Machine { state }.run(&words[..count]);
    let answer = past_block(rest);
    replies::number(ran.reply) == octets::byte(answer, 0)
        && replies::number(ran.refused) == octets::byte(answer, 1)
        && ran.done as u64 == octets::number_at(answer, 2, 4)
        && state_is(ran.state, block(octets::after(answer, 6)))
}

fn image_agrees(rest: &[u8]) -> bool
    ensures { result ≡ true → ImageAgrees rest.now }
{
    let reply = octets::byte(rest, 0);
    let given = octets::after(rest, 1);
    let mut words = [0; 4096];
    match image::read(block(given), &mut words) {
        Err(refusal) => refusal.number() == reply,
        Ok(reading) => {
            reply == 0
                && image_is(
                    reading.state,
                    &words[..reading.count],
                    block(past_block(given)),
                )
        }
    }
}

fn walk_agrees(rest: &[u8]) -> bool
    ensures { result ≡ true → WalkAgrees rest.now }
{
    let asked = past_block(rest);
    let places = octets::number_at(asked, 5, 4) as usize;
    let mut words = [0; 4096];
    let mut list = [u64::MAX; PLACES];
    match read_whole(block(rest), &mut words) {
        Some(reading) if places <= PLACES => walk_is(reading.state, asked, &mut list[..places]),
        _ => false,
    }
}

fn walk_is(state: State, asked: &[u8], list: &mut [u64]) -> bool
    ensures { result ≡ true → Walks state asked.now list.old }
{
    let request = Request {
        size: register(asked, 0),
        n: register(asked, 1),
        m: register(asked, 2),
        d: register(asked, 3),
        k: register(asked, 4),
    };
    let walked = walk::walk(state, request, list, octets::number_at(asked, 9, 8));
    let end = octets::after(asked, 30);
    replies::number(walked.reply) == octets::byte(asked, 17)
        && walked.count == octets::number_at(asked, 18, 8)
        && walked.visited as u64 == octets::number_at(asked, 26, 4)
        && state_is(walked.state, block(end))
        && list_is(list, past_block(end))
}

fn register(bs: &[u8], i: usize) -> u32
    ensures { result ≡ get_or bs.now i 0 }
{
    u32::from(octets::byte(bs, i))
}

fn step_agrees(rest: &[u8]) -> bool
    ensures { result ≡ true → StepAgrees rest.now }
{
    let mut words = [0; 4096];
    let Some(reading) = read_whole(block(rest), &mut words) else {
        return false;
    };
    let asked = past_block(rest);
    let stepped = step_of(reading.state, first_word(&words[..reading.count]), asked);
    replies::number(stepped.reply) == octets::byte(asked, 2)
        && stepped.shared.second == flags_at(asked, 3)
        && state_is(stepped.shared.state, block(octets::after(asked, 4)))
}

// The first word, or 0 if there is none.
fn first_word(words: &[u32]) -> u32
    ensures { result ≡ get_or words.now 0 0 }
{
    words.first().copied().unwrap_or(0)
}

// The step that is asked for, of a state and the second kernel's flags beside it.
fn step_of(state: State, word: u32, asked: &[u8]) -> Stepped
    ensures { result ≡ turn_of asked.now state word }
{
    let second = flags_at(asked, 1);
    let kernel = Kernel::of(octets::byte(asked, 0) == 1);
    Shared { state, second }.step(kernel, word)
}

fn flags_at(bs: &[u8], i: usize) -> Flags
    ensures { result ≡ flags_of (get_or bs.now i 0) }
{
    Flags::of(u64::from(octets::byte(bs, i)))
}

fn title_agrees(rest: &[u8]) -> bool
    ensures { result ≡ true → TitleAgrees rest.now }
{
    let units = octets::number_at(rest, 8, 4) as usize;
    let mut title = [0; UNITS];
    let mut folded = [0; UNITS];
    units <= UNITS && title_is(rest, &mut title[..units], &mut folded[..units])
}

// Whether the title of a record is folded as the record says. The lent lists take the title and what it is to be after.
fn title_is(rest: &[u8], title: &mut [u16], folded: &mut [u16]) -> bool
    requires { length folded.old ≡ length title.old }
    ensures { result ≡ true → TitleFolds rest.now (length title.old) }
{
    put_units(octets::after(rest, 13), title);
    put_units(octets::after(rest, title.len() * 2 + 13), folded);
    let reply = fold::fold(title, octets::number_at(rest, 0, 8));
    replies::number(reply) == octets::byte(rest, 12) && &*title == &*folded
}

// Puts a unit of two bytes at each place of a title.
#[tactic(auto, using(crate::proofs::Answers::all_parts))]
fn put_units(bs: &[u8], title: &mut [u16])
    ensures { title.new ≡ parts value 2 (length title.old) bs.now }
{
    for (i, unit) in title.iter_mut().enumerate() {
        *unit = octets::number_at(bs, i * 2, 2) as u16;
    }
}

// Whether a list is these bytes, eight for each place.
#[tactic(auto, using(crate::proofs::Answers::all_parts))]
fn list_is(list: &[u64], bs: &[u8]) -> bool
    ensures { result ≡ true → list.now ≡ parts value 8 (length list.now) bs.now }
{
    list.iter()
        .enumerate()
        .all(|(i, &place)| place == octets::number_at(bs, i * 8, 8))
}

// Whether the image of a state and words is these bytes.
fn image_is(state: State, words: &[u32], image: &[u8]) -> bool
    ensures { result ≡ true → image_of state words.now ≡ image.now }
{
    let mut buffer = [0; image::LARGEST];
    match image::write(state, words, &mut buffer) {
        Ok(length) => octets::first(&buffer, length) == image,
        Err(_) => false,
    }
}

fn state_is(state: State, image: &[u8]) -> bool
    ensures { result ≡ true → image_of state [] ≡ image.now }
{
    image_is(state, &[], image)
}
