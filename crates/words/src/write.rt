// Writing a word by the table of the forms' bits.
ghost use Rattle.std.specs.Prelude.{◌≡◌, ◌*◌, ◌^◌, ◌<◌, ◌≤◌, ltb, length, drop};
ghost use Rattle.words.specs.Layout.{from};
ghost use Rattle.words.specs.Words.{forms, form_at, encode_of};
ghost use Rattle.words.specs.Rows.{encoded_as, row_layout};
ghost use Rattle.words.specs.Inside.{places_of};

use super::Instruction;
use super::row::row_of;
use replies::Refusal;

// The fixed bits of a form's word, and each of its fields as (lowest bit, width); a row's numbers past them have width 0.
#[derive(Clone, Copy)]
struct Places {
    fixed: u32,
    fields: [(u8, u8); 8],
}

// How many forms there are.
const FORMS: usize = 17;

// Where each form's bits lie, in the order of the table.
#[rattlefmt::skip]
const TABLE: [Places; FORMS] = [
    // WHILE one
    Places { fixed: 0x25200000, fields: [(22, 2), (16, 5), (12, 1), (11, 1), (10, 1), (5, 5), (4, 1), (0, 4)] },
    // WHILE pair
    Places { fixed: 0x25205010, fields: [(22, 2), (16, 5), (11, 1), (10, 1), (5, 5), (1, 3), (0, 1), (0, 0)] },
    // WHILE counter
    Places { fixed: 0x25204010, fields: [(22, 2), (16, 5), (13, 1), (11, 1), (10, 1), (5, 5), (3, 1), (0, 3)] },
    // saturating
    Places { fixed: 0x25288800, fields: [(22, 2), (17, 1), (16, 1), (10, 1), (5, 4), (0, 5), (0, 0), (0, 0)] },
    // INCP and DECP
    Places { fixed: 0x252C8800, fields: [(22, 2), (16, 1), (5, 4), (0, 5), (0, 0), (0, 0), (0, 0), (0, 0)] },
    // CNTP
    Places { fixed: 0x25208000, fields: [(22, 2), (10, 4), (5, 4), (0, 5), (0, 0), (0, 0), (0, 0), (0, 0)] },
    // CNTP counter
    Places { fixed: 0x25208200, fields: [(22, 2), (10, 1), (5, 4), (0, 5), (0, 0), (0, 0), (0, 0), (0, 0)] },
    // PNEXT
    Places { fixed: 0x2519C400, fields: [(22, 2), (5, 4), (0, 4), (0, 0), (0, 0), (0, 0), (0, 0), (0, 0)] },
    // PFIRST
    Places { fixed: 0x2558C000, fields: [(5, 4), (0, 4), (0, 0), (0, 0), (0, 0), (0, 0), (0, 0), (0, 0)] },
    // PTEST
    Places { fixed: 0x2550C000, fields: [(10, 4), (5, 4), (0, 0), (0, 0), (0, 0), (0, 0), (0, 0), (0, 0)] },
    // PFALSE
    Places { fixed: 0x2518E400, fields: [(0, 4), (0, 0), (0, 0), (0, 0), (0, 0), (0, 0), (0, 0), (0, 0)] },
    // logic
    Places { fixed: 0x25004000, fields: [(23, 1), (22, 1), (16, 4), (10, 4), (9, 1), (5, 4), (4, 1), (0, 4)] },
    // SETFFR
    Places { fixed: 0x252C9000, fields: [(0, 0), (0, 0), (0, 0), (0, 0), (0, 0), (0, 0), (0, 0), (0, 0)] },
    // WRFFR
    Places { fixed: 0x25289000, fields: [(5, 4), (0, 0), (0, 0), (0, 0), (0, 0), (0, 0), (0, 0), (0, 0)] },
    // RDFFR
    Places { fixed: 0x2519F000, fields: [(0, 4), (0, 0), (0, 0), (0, 0), (0, 0), (0, 0), (0, 0), (0, 0)] },
    // RDFFR under Pg
    Places { fixed: 0x2518F000, fields: [(5, 4), (0, 4), (0, 0), (0, 0), (0, 0), (0, 0), (0, 0), (0, 0)] },
    // RDFFRS under Pg
    Places { fixed: 0x2558F000, fields: [(5, 4), (0, 4), (0, 0), (0, 0), (0, 0), (0, 0), (0, 0), (0, 0)] },
];

fn places_of(form: usize) -> Places
    requires { form < length forms }
    ensures { result ≡ places_of (row_layout (form_at form)) }
{
    TABLE[form]
}

// The number of the form that leaves a combination of fields out.
const LOGIC: usize = 11;

// Whether a form has a word with the fields of a row: logic leaves out SEL with S = 1.
fn is_allowed(form: usize, row: [u8; 9]) -> bool
    ensures { result ≡ from (form_at form).allowed (drop 1 row) }
{
    let bits = u32::from(row[1]) * 4 + u32::from(row[5]) * 2 + u32::from(row[7]);
    form != LOGIC || super::logic_has_word(bits, row[2] == 1)
}

// A number is below 2 ^ width.
fn is_within(x: u8, width: u8) -> bool
    requires { width < 64 }
    ensures { result ≡ ltb x (2 ^ width) }
{
    u64::from(x) < 1 << width
}

// A number from bit low up.
fn from_bit(x: u8, low: u8) -> u64
    requires { low ≤ 32 }
    ensures { (result ≡ x * 2 ^ low) × (result < 2 ^ 40) }
{
    u64::from(x) << low
}

// The word of a row: the form's fixed bits, and each number at its field's place.
pub fn word_of(row: [u8; 9]) -> Result<u32, Refusal>
    ensures { result ≡ encoded_as row }
{
    let form = usize::from(row[0]);
    if FORMS <= form || !is_allowed(form, row) {
        return Err(Refusal::FieldPastRange);
    }
    let places = places_of(form);
    let mut word = u64::from(places.fixed);
    for (x, (low, width)) in row[1..].iter().zip(&places.fields) {
        if !is_within(*x, *width) {
            return Err(Refusal::FieldPastRange);
        }
        word += from_bit(*x, *low);
    }
    Ok(word as u32)
}

// The word of an instruction whose fields are all within their ranges.
pub fn encode(i: Instruction) -> Result<u32, Refusal>
    ensures { result ≡ encode_of i }
{
    word_of(row_of(i))
}
