// The program's lines, written into a lent buffer. A line that does not fit whole leaves the buffer as it was.
#![tactic(auto)]

ghost use Rattle.std.specs.Prelude.{◌≡◌, [], ◌∷◌, ◌++◌, ◌+◌, ◌-◌, ◌≤◌, ◌<◌, length};
ghost use Rattle.std.proofs.lemmas.List.Edits.{sets};
ghost use Rattle.bits.specs.Choice.{digit};
ghost use Rattle.report.specs.Lines.{symbol as symbol_of, digits, decimal, flag_digits, newline, word_line, end_line, image_line, after, placed};

use predicates::Flags;

// The line of a word at position `at`: the position after it, or `at` if it does not fit.
pub fn word_line(
    number: u32,
    word: u32,
    reply: u8,
    flags: Flags,
    at: usize,
    buffer: &mut [u8],
) -> usize
    ensures value { result ≡ after (word_line number word reply flags) at (length buffer.old) }
    ensures buffer_after { buffer.new ≡ placed (word_line number word reply flags) at buffer.old }
{
    let short = u32::from(reply);
    let a = width(number);
    let b = width(short);
    if buffer.len().saturating_sub(at) < a + b + 16 {
        return at;
    }
    let at = put_field(buffer, at, a, 10, number, b' ');
    let at = put_field(buffer, at, 8, 16, word, b' ');
    let at = put_field(buffer, at, b, 10, short, b' ');
    put_flags(buffer, at, flags)
}

// The last line: how many words were done.
#[tactic(auto, unfolding(crate::specs::Lines::end_line))]
pub fn end_line(done: u32, at: usize, buffer: &mut [u8]) -> usize
    ensures value { result ≡ after (end_line done) at (length buffer.old) }
    ensures buffer_after { buffer.new ≡ placed (end_line done) at buffer.old }
{
    named_line(b"end ", done, at, buffer)
}

// The only line of a refused image.
#[tactic(auto, unfolding(crate::specs::Lines::image_line))]
pub fn image_line(reply: u8, at: usize, buffer: &mut [u8]) -> usize
    ensures value { result ≡ after (image_line reply) at (length buffer.old) }
    ensures buffer_after { buffer.new ≡ placed (image_line reply) at buffer.old }
{
    named_line(b"image ", u32::from(reply), at, buffer)
}

// A text and a number: the position after the line, or `at` if it does not fit.
fn named_line(name: &[u8], number: u32, at: usize, buffer: &mut [u8]) -> usize
    ensures value { result ≡ after (name.now ++ (decimal number ++ (newline ∷ []))) at (length buffer.old) }
    ensures buffer_after { buffer.new ≡ placed (name.now ++ (decimal number ++ (newline ∷ []))) at buffer.old }
{
    let a = width(number);
    if buffer.len().saturating_sub(at) < a + name.len() + 1 {
        return at;
    }
    let at = put_text(buffer, at, name);
    put_field(buffer, at, a, 10, number, b'\n')
}

// How many decimal digits n has.
fn width(n: u32) -> usize
    ensures { (result ≡ length (decimal n)) × (result ≤ 10) }
{
    n.checked_ilog10().unwrap_or(0) as usize + 1
}

// A digit below 16.
fn symbol(d: u8) -> u8
    requires { d < 16 }
    ensures { result ≡ symbol_of d }
{
    if d < 10 { b'0' + d } else { b'a' + d - 10 }
}

// The k lowest digits of v, most significant first, and the byte `end`: the position after them.
fn put_field(buffer: &mut [u8], at: usize, k: usize, base: u32, v: u32, end: u8) -> usize
    requires { (at + k < length buffer.old) × ((0 < base) × (base ≤ 16)) }
    ensures value { result ≡ at + k + 1 }
    ensures buffer_after { buffer.new ≡ sets buffer.old at (digits base k v ++ (end ∷ [])) }
{
    let mut rest = v;
    for i in (0..k).rev() {
        buffer[at + i] = symbol((rest % base) as u8);
        rest /= base;
    }
    buffer[at + k] = end;
    at + k + 1
}

// NZCV and a newline: the position after them.
fn put_flags(buffer: &mut [u8], at: usize, flags: Flags) -> usize
    requires { at + 5 ≤ length buffer.old }
    ensures value { result ≡ at + 5 }
    ensures buffer_after { buffer.new ≡ sets buffer.old at (flag_digits flags ++ (newline ∷ [])) }
{
    let text = [
        bit(flags.n),
        bit(flags.z),
        bit(flags.c),
        bit(flags.v),
        b'\n',
    ];
    put_text(buffer, at, &text)
}

fn bit(b: bool) -> u8
    ensures { result ≡ symbol_of (digit b) }
{
    b'0' + u8::from(b)
}

// A text: the position after it.
fn put_text(buffer: &mut [u8], at: usize, text: &[u8]) -> usize
    requires { at + length text.now ≤ length buffer.old }
    ensures value { result ≡ at + length text.now }
    ensures buffer_after { buffer.new ≡ sets buffer.old at text.now }
{
    let end = at + text.len();
    buffer[at..end].copy_from_slice(text);
    end
}
