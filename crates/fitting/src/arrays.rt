// Whether the lists, the counters and the signals to broadcast of a game fit a book. Where no item is to fail, `fold` goes over all of
// them, several at once; `all` stops at the first that fails, and took half as long again for a game that fits.
ghost use Rattle.std.specs.Prelude.{◌≡◌, true, false, ◌≤◌, eqb, drop, MatchOption};
ghost use Rattle.std.specs.List.{list_all};
ghost use Rattle.lines.specs.Lines.{most_entries};
ghost use Rattle.numbers.specs.Numbers.{is_within};
ghost use Rattle.numbers.specs.Counting.{all_below};
ghost use Rattle.fitting.specs.Arrays.{Flagged, entry_fits, line_fits, counters_fit, signals_fit};

use layout::{MOST_COUNTERS, MOST_SIGNALS};
use lines::{Line, MOST_ENTRIES};
use numbers::{HIGHEST_COUNTER, LOWEST_COUNTER, is_within};

// How many numbers an entry of a list, which is a byte, can be.
const BYTE_LIMIT: usize = 256;

// A flag for each number that an entry of a list can be.
pub type Flags = [bool; BYTE_LIMIT];

// Which routines are in a list, where its entries are routines of a book of so many, none twice.
fn entries_of(line: &Line, routines: usize) -> Option<Flags>
    requires { line.now.len ≤ most_entries }
    ensures { MatchOption result
        (all_below line.now.len (entry_fits line.now routines) ≡ false)
        (λ seen. (all_below line.now.len (entry_fits line.now routines) ≡ true) × Flagged seen line.now) }
{
    let mut seen = [false; BYTE_LIMIT];
    for item in &line.items[..line.len] {
        let item = usize::from(*item);
        if routines <= item || seen[item] {
            return None;
        }
        seen[item] = true;
    }
    Some(seen)
}

// Whether nothing is kept behind a list's length.
fn rest_fits(line: &Line) -> bool
    requires { line.now.len ≤ most_entries }
    ensures { result ≡ list_all (λ v. eqb v 0) (drop line.now.len line.now.items) }
{
    line.items[line.len..]
        .iter()
        .fold(true, |fit, item| fit & (*item == 0))
}

// Which routines are in a list, where it fits a book of so many.
pub fn routines_in(line: &Line, routines: usize) -> Option<Flags>
    ensures { MatchOption result
        (line_fits line.now routines ≡ false)
        (λ seen. (line_fits line.now routines ≡ true) × Flagged seen line.now) }
{
    if line.len <= MOST_ENTRIES && rest_fits(line) {
        entries_of(line, routines)
    } else {
        None
    }
}

// Whether counters are all within a range.
fn are_within(values: &[i32], low: i32, high: i32) -> bool
    ensures { result ≡ list_all (λ v. is_within v low high) values.now }
{
    values
        .iter()
        .fold(true, |fit, v| fit & is_within(*v, low, high))
}

// Whether the counters fit a book that has so many: they are in their range, and nothing is kept beyond them.
pub fn counters_fit(values: &[i32; MOST_COUNTERS], counters: usize) -> bool
    ensures { result ≡ counters_fit values.now counters }
{
    let end = counters.min(MOST_COUNTERS);
    are_within(&values[..end], LOWEST_COUNTER, HIGHEST_COUNTER) && are_within(&values[end..], 0, 0)
}

// Whether the signals to broadcast fit a book that has so many: nothing is kept beyond them.
pub fn signals_fit(flags: &[bool; MOST_SIGNALS], signals: usize) -> bool
    ensures { result ≡ signals_fit flags.now signals }
{
    flags[signals.min(MOST_SIGNALS)..]
        .iter()
        .fold(true, |fit, flag| fit & !*flag)
}
