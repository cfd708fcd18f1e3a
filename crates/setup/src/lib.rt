#![tactic(auto)]
// Setting up a game. Document 01, "The game".
ghost use Rattle.std.specs.Prelude.{◌≡◌};
ghost use Rattle.fitting.specs.Fits.{GivesFitting};
ghost use Rattle.setup.specs.SetUp.{new_game, set_up};

use game::{Game, Outcome, blank_game};
use kinds::Counts;
use layout::counts_of;
use lines::push;
use reading::read_book;
use verdicts::verdict_of;

// A game as set up for these numbers: a blank one, with routine 0 to start.
fn new_game(counts: Counts) -> Game
    ensures { result ≡ new_game counts }
{
    let mut next = blank_game();
    let empty = next.listed;
    let starting = push(empty, 0);
    next.counts = counts;
    next.starting = starting;
    next
}

// Replaces a lent game by the one that a play of the book begins with. Checks 1 to 7; a refusal hands the game back as lent.
// The verdict's number is asked for, since a match on the answer takes longer: 465 ns against 433.
pub fn set_up(book: &[u8], game: Game) -> Outcome
    ensures { (result ≡ set_up book.now game) × GivesFitting book.now result }
{
    let verdict = verdict_of(read_book(book));
    if verdict.number == 0 {
        let next = new_game(counts_of(book));
        return Outcome {
            verdict,
            game: next,
        };
    }
    Outcome { verdict, game }
}
