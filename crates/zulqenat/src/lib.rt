#![tactic(auto)]
// The calls for C. A book is bytes; a game is kept as its stored form at the front of a buffer that is lent with the stored game's length.
// c/zulqenat.h declares them.
ghost use Rattle.std.specs.Prelude.{◌≤◌, ◌≡◌, length};
ghost use Rattle.book.specs.Book.{book_verdict, shown, shown_from};
ghost use Rattle.unstarted.specs.Unstarted.{names_for, names};
ghost use Rattle.stored_games.specs.Calls.{store_answer};
ghost use Rattle.round.specs.Answers.{most_lost};
ghost use Rattle.kept_games.specs.Kept.{kept_verdict, end_in, kept_length, set_up_kept, order_kept, play_kept};
ghost use Rattle.kept_rounds.specs.Rounds.{kept_round};

use directory::{first_step, routine_steps};
use keeping::{kept_length, kept_verdict, order_kept, set_up_kept};
use kept_rounds::{Round, play_kept};
use kinds::STEP_BYTES;
use layout::{routines, steps_from};
use reading::read_book;
use storing::Stored;
use unstarted::UnstartedNames;
use verdicts::{Verdict, verdict_of};

// A part of a book.
#[repr(C)]
#[derive(Clone, Copy)]
pub struct Part {
    pub offset: usize,
    pub length: usize,
}

// The number and the place of the first refusal that applies; both 0 where the book is accepted.
#[unsafe(no_mangle)]
pub extern "C" fn zulqenat_check_book(book: &[u8]) -> Verdict
    ensures { result ≡ book_verdict book.now }
{
    verdict_of(read_book(book))
}

// The routines that no chain of start steps leads to from routine 0: the contract is that of `unstarted::unstarted`.
#[unsafe(no_mangle)]
pub extern "C" fn zulqenat_unstarted(book: &[u8], buffer: &mut [u8]) -> UnstartedNames
    ensures { names_for result.verdict result.count buffer.new ≡ names book.now buffer.old }
{
    unstarted::unstarted(book, buffer)
}

// The steps of a routine, as a part of the book: where it begins and how long it is.
#[unsafe(no_mangle)]
pub extern "C" fn zulqenat_show(book: &[u8], routine: u32) -> Part
    ensures { (result.offset ≡ shown_from book.now routine) × (result.length ≡ length (shown book.now routine)) }
{
    // usize has no From<u32>.
    let at = routine as usize;
    if read_book(book).is_err() || routines(book) <= at {
        return Part {
            offset: 0,
            length: 0,
        };
    }
    let steps = routine_steps(book, at);
    Part {
        offset: steps_from(book) + STEP_BYTES * first_step(book, at),
        length: steps.len(),
    }
}

// Whether the kept game fits the book: the contract is that of `keeping::kept_verdict`.
#[unsafe(no_mangle)]
pub extern "C" fn zulqenat_fits(book: &[u8], buffer: &[u8], length: usize) -> Verdict
    ensures { result ≡ kept_verdict book.now buffer.now length }
{
    kept_verdict(book, buffer, length)
}

// How long the stored game at the front of a buffer is: the contract is that of `keeping::kept_length`.
#[unsafe(no_mangle)]
pub extern "C" fn zulqenat_stored_length(book: &[u8], buffer: &[u8]) -> Stored
    ensures { (result.verdict ≡ kept_verdict book.now buffer.now (end_in buffer.now))
        × (result.length ≡ kept_length book.now buffer.now) }
{
    kept_length(book, buffer)
}

// Sets up a game: the contract is that of `keeping::set_up_kept`.
#[unsafe(no_mangle)]
pub extern "C" fn zulqenat_set_up(book: &[u8], buffer: &mut [u8]) -> Stored
    ensures { store_answer result.verdict result.length buffer.new ≡ set_up_kept book.now buffer.old }
{
    set_up_kept(book, buffer)
}

// Gives the kept game an order: the contract is that of `keeping::order_kept`.
#[unsafe(no_mangle)]
pub extern "C" fn zulqenat_order(
    book: &[u8],
    buffer: &mut [u8],
    length: usize,
    kind: u32,
    number: u32,
) -> Stored
    ensures { store_answer result.verdict result.length buffer.new
        ≡ order_kept book.now buffer.old length kind number }
{
    order_kept(book, buffer, length, kind, number)
}

// Plays a round of the kept game: the contract is that of `kept_rounds::play_kept`.
#[unsafe(no_mangle)]
pub extern "C" fn zulqenat_play(
    book: &[u8],
    buffer: &mut [u8],
    length: usize,
    marks: &mut [i32],
) -> Round
    ensures marks_after { kept_round result buffer.new marks.new
        ≡ play_kept book.now buffer.old length marks.old }
    ensures lost_le_most_lost { result.lost ≤ most_lost }
{
    play_kept(book, buffer, length, marks)
}
