#![tactic(auto)]
// The listing of a whole play: what the program `rounds` prints for a book. Document 01, "Set plays".
ghost use Rattle.std.specs.Prelude.{◌≡◌, eqb, get_or, take};
ghost use Rattle.std.specs.List.{list_all};
ghost use Rattle.game.specs.Game.{ended, blank};
ghost use Rattle.texts.specs.Texts.{filled, with_text};
ghost use Rattle.texts.specs.Held.{Puts};
ghost use Rattle.plays.specs.Plays.{is_over};
ghost use Rattle.play_listing.specs.Printed.{next_answer, lines_of, lines_from, most_rounds, printed};

use game::{ENDED, Game, Routine, blank_game};
use kinds::STEP_BYTES;
use layout::{ENTRY_BYTES, HEADER_BYTES, MOST_ROUTINES, MOST_STEPS};
use lines::used;
use listing::{LONGEST_MARK_LINE, LONGEST_ROUND_LINE, NUMBERS_PER_MARK, put_refusal, put_round};
use playing::play;
use setup::set_up;
use texts::Text;

// "at most 100 rounds"
const MOST_ROUNDS: usize = 100;

// The numbers of as many marks as a book may have mark steps.
const MOST_NUMBERS: usize = NUMBERS_PER_MARK * MOST_STEPS;

// The bytes of a longest book.
pub const LONGEST_BOOK: usize = HEADER_BYTES
    + ENTRY_BYTES * MOST_ROUTINES
    + STEP_BYTES * MOST_STEPS;

// No listing has more bytes than so many rounds with a mark for each step that a book may have.
pub const LONGEST_LISTING: usize = MOST_ROUNDS
    * (LONGEST_ROUND_LINE + LONGEST_MARK_LINE * MOST_STEPS);

// Whether a routine has ended. One past the arrays has not.
fn has_ended(routines: &[Routine; MOST_ROUTINES], routine: u8) -> bool
    ensures { result ≡ eqb (get_or routines.now routine blank).stage ended }
{
    match routines.get(usize::from(routine)) {
        Some(there) => there.stage == ENDED,
        None => false,
    }
}

// Whether all that are listed have.
fn have_ended(routines: &[Routine; MOST_ROUTINES], listed: &[u8]) -> bool
    ensures { result ≡ list_all (λ r. eqb (get_or routines.now r blank).stage ended) listed.now }
{
    listed.iter().all(|routine| has_ended(routines, *routine))
}

// Whether a play is over: "every listed routine has ended with none to start".
pub fn is_over(game: Game) -> bool
    ensures { result ≡ is_over game }
{
    let all = used(game.listed);
    used(game.starting) == 0 && have_ended(&game.routines, &game.listed.items[..all])
}

// Plays the next round, which has this number, and puts its lines behind what is there. Answers the game behind it.
fn list_round(book: &[u8], game: Game, number: usize, text: &mut Text) -> Game
    ensures { (result ≡ (next_answer book.now game).game)
        × Puts text.old (lines_of number (next_answer book.now game)) text.new }
{
    let mut marks = [0i32; MOST_NUMBERS];
    let played = play(book, game, &mut marks);
    let end = NUMBERS_PER_MARK * played.marks;
    put_round(text, number, played.passes, &marks[..end]);
    played.game
}

// Plays and lists rounds until the play is over.
fn list_rounds(book: &[u8], game: Game, text: &mut Text)
    ensures { Puts text.old (lines_from book.now most_rounds 1 game) text.new }
{
    let mut game = game;
    for number in 1..=MOST_ROUNDS {
        if is_over(game) {
            return;
        }
        game = list_round(book, game, number, text);
    }
}

// Lists a play of a book, or its refusal, and answers how many bytes of the buffer are used: one more than it has where not all fit.
// No Option: the README and the clause say that number.
pub fn list_play(book: &[u8], out: &mut [u8]) -> usize
    ensures { filled out.new result ≡ with_text (filled out.old 0) (printed book.now) }
{
    let outcome = set_up(book, blank_game());
    let verdict = outcome.verdict;
    let mut text = Text { out, used: 0 };
    // By its number: `set_up` answers C's Outcome, which is no Result.
    if verdict.number != 0 {
        put_refusal(&mut text, verdict);
        return text.used;
    }
    list_rounds(book, outcome.game, &mut text);
    text.used
}

// The same in a buffer that no listing is too long for: as many of its first bytes as are answered are the whole of it.
pub fn list_whole(book: &[u8], out: &mut [u8; LONGEST_LISTING]) -> usize
    ensures result_after { filled out.new result ≡ with_text (filled out.old 0) (printed book.now) }
    ensures out_after { take result out.new ≡ printed book.now }
{
    list_play(book, out)
}
