#![tactic(auto)]
// The header of a book and where its parts lie: refusals 1 to 3. Document 01, "The book".
ghost use Rattle.std.specs.Prelude.{◌≡◌, ◌+◌, ◌*◌, ◌<◌};
ghost use Rattle.numbers.specs.Numbers.{half_limit};
ghost use Rattle.kinds.specs.Limits.{limits_of};
ghost use Rattle.verdicts.specs.Verdicts.{verdict_of};
ghost use Rattle.layout.specs.Layout.{header_bytes, entry_bytes, routines_of, steps_of, signals_of, counters_of, counts_fit, counts_of};
ghost use Rattle.layout.specs.Layout.{layout_fits, steps_from, layout_verdict};

use kinds::{Counts, Limits, STEP_BYTES};
use numbers::half_at;
use verdicts::Refusal;

pub const MOST_ROUTINES: usize = 64;

pub const MOST_STEPS: usize = 1024;

pub const MOST_SIGNALS: usize = 64;

pub const MOST_COUNTERS: usize = 64;

// The bytes of the header and of an entry of the directory.
pub const HEADER_BYTES: usize = 12;

pub const ENTRY_BYTES: usize = 4;

// The four counts: each is one call of `half_at` at its own place, so a const parameter would add a function and take none away.
pub fn routines(book: &[u8]) -> usize
    ensures { (result ≡ routines_of book.now) × (result < half_limit) }
{
    half_at(book, 0)
}

pub fn steps(book: &[u8]) -> usize
    ensures { (result ≡ steps_of book.now) × (result < half_limit) }
{
    half_at(book, 2)
}

pub fn signals(book: &[u8]) -> usize
    ensures { (result ≡ signals_of book.now) × (result < half_limit) }
{
    half_at(book, 4)
}

pub fn counters(book: &[u8]) -> usize
    ensures { (result ≡ counters_of book.now) × (result < half_limit) }
{
    half_at(book, 6)
}

// The numbers R, E and C.
pub fn counts_of(book: &[u8]) -> Counts
    ensures { result ≡ counts_of book.now }
{
    Counts {
        routines: routines(book),
        signals: signals(book),
        counters: counters(book),
    }
}

// What the fields of a step of this book may be. `as` is proved to lose nothing of 16 bits; try_from would give an Err to handle.
pub fn limits_in(book: &[u8]) -> Limits
    ensures { result ≡ limits_of (counts_of book.now) }
{
    kinds::limits_of(
        routines(book) as u16,
        signals(book) as u16,
        counters(book) as u16,
    )
}

fn counts_fit(book: &[u8]) -> bool
    ensures { result ≡ counts_fit book.now }
{
    let all = routines(book);
    1 <= all
        && all <= MOST_ROUTINES
        && steps(book) <= MOST_STEPS
        && signals(book) <= MOST_SIGNALS
        && counters(book) <= MOST_COUNTERS
}

// Where the steps begin: behind the header and the directory.
pub fn steps_from(book: &[u8]) -> usize
    ensures { (result ≡ steps_from book.now) × (result < header_bytes + entry_bytes * half_limit) }
{
    HEADER_BYTES + ENTRY_BYTES * routines(book)
}

fn layout_fits(book: &[u8]) -> bool
    ensures { result ≡ layout_fits book.now }
{
    let from = steps_from(book);
    half_at(book, 8) == HEADER_BYTES
        && half_at(book, 10) == from
        && book.len() == from + STEP_BYTES * steps(book)
}

// Refusals 1 to 3.
#[tactic(auto, unfolding(crate::specs::Layout::layout_verdict))]
pub fn check_layout(book: &[u8]) -> Result<(), Refusal>
    ensures { verdict_of result ≡ layout_verdict book.now }
{
    if book.len() < HEADER_BYTES {
        return Err(Refusal::TooShort);
    }
    if !counts_fit(book) {
        return Err(Refusal::WrongCount);
    }
    if !layout_fits(book) {
        return Err(Refusal::WrongLayout);
    }
    Ok(())
}
