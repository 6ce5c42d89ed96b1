// The search for the next active element, element by element, with the contract of `Predicate::next_active`. Only the benchmark uses this crate: it times the two searches by
// their functions for C, in which size is 0 to 3 and a larger number is taken for 3.
#![tactic(auto)]

ghost use Rattle.std.specs.Prelude.{◌≡◌};
ghost use Rattle.bits.specs.Search.{first_from};
ghost use Rattle.bits.specs.Size.{shift};
ghost use Rattle.predicates.specs.Predicate.{active};
ghost use Rattle.words.specs.Words.{size_of};

use bits::Size;
use predicates::Predicate;

// The first active element from `start` on and below `elements`; `elements` if there is none, or `start` where that is past them.
pub fn next_active(mask: Predicate, size: Size, start: u64, elements: u64) -> u64
    ensures { result ≡ first_from (active (shift size) mask) start elements }
{
    for next in start..elements {
        if mask.is_active(size, next) {
            return next;
        }
    }
    start.max(elements)
}

// The search element by element.
#[unsafe(no_mangle)]
pub extern "C" fn plokamyr_next_by_elements(
    mask: Predicate,
    size: u32,
    start: u64,
    elements: u64,
) -> u64
    ensures { result ≡ first_from (active (shift (size_of size)) mask) start elements }
{
    next_active(mask, words::size_of(size), start, elements)
}

// The search by words.
#[unsafe(no_mangle)]
pub extern "C" fn plokamyr_next_by_words(
    mask: Predicate,
    size: u32,
    start: u64,
    elements: u64,
) -> u64
    ensures { result ≡ first_from (active (shift (size_of size)) mask) start elements }
{
    mask.next_active(words::size_of(size), start, elements)
}
