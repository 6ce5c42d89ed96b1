// The bytes of a slice, whatever its length: one of them, the first, what is left, and numbers, lowest byte first.
// A byte past the end reads as 0; nothing is asked of the caller.
#![tactic(auto)]

ghost use Rattle.std.specs.Prelude.{◌≡◌, ◌≤◌, min, length, take, drop, get_or};
ghost use Rattle.octets.specs.Bytes.{value, number_at};

// Byte i, or 0 past the end.
pub fn byte(bs: &[u8], i: usize) -> u8
    ensures { result ≡ get_or bs.now i 0 }
{
    bs.get(i).copied().unwrap_or(0)
}

// What is left past n bytes.
pub fn after(bs: &[u8], n: usize) -> &[u8]
    ensures { result.now ≡ drop n bs.now }
{
    &bs[n.min(bs.len())..]
}

// The first n bytes, or as many of them as there are.
pub fn first(bs: &[u8], n: usize) -> &[u8]
    ensures { result.now ≡ take n bs.now }
{
    &bs[..n.min(bs.len())]
}

// The number of the n bytes from `at` on, lowest first: of as many of them as there are, and of at most eight.
pub fn number_at(bs: &[u8], at: usize, n: usize) -> u64
    ensures { result ≡ number_at at n bs.now }
{
    number(first(after(bs, at), n.min(8)))
}

fn number(bs: &[u8]) -> u64
    requires { length bs.now ≤ 8 }
    ensures { result ≡ value bs.now }
{
    let mut word = [0; 8];
    word[..bs.len()].copy_from_slice(bs);
    u64::from_le_bytes(word)
}
