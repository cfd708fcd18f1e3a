// A round, played with a buffer for its marks.
use crate::buffers::{check_rest, lend};
use layout::MOST_STEPS;
use playing::Played;
use scripts::{NotCommand, Numbers, State, Told, tell};

// The numbers of the longest buffer that is lent: two for each step of a largest book. A longer one would be answered alike, for a round is
// turned down for want of room by the book's mark steps alone, and has no more marks than these.
const LONGEST_BUFFER: usize = MOST_STEPS * 2;

// What the buffer holds before a round; no mark has it.
const UNTOUCHED: i32 = i32::MAX;

// Prints the marks of a buffer, two numbers each.
fn print_marks(numbers: &[i32], marks: usize) {
    for mark in numbers.chunks_exact(2).take(marks) {
        tell(format_args!("mark{}", Numbers(mark)));
    }
}

fn print_round(played: &Played) {
    let verdict = Told(played.verdict);
    let numbers = [played.passes, played.marks, played.lost];
    tell(format_args!("round {verdict}{}", Numbers(&numbers)));
}

// A round with a buffer of so many numbers as `text` says.
pub fn round(text: &[u8], state: &mut State) -> Result<(), NotCommand> {
    let mut all = [UNTOUCHED; LONGEST_BUFFER];
    let numbers = lend(text, &mut all)?;
    let played = playing::play(state.book(), state.poked.lent(), numbers);
    print_round(&played);
    print_marks(numbers, played.marks);
    let written = played.marks.saturating_mul(2);
    check_rest(numbers, written, &UNTOUCHED, "changed behind the marks");
    state.poked.give(played.game);
    Ok(())
}
