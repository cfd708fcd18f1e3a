#![tactic(auto)]
// Which games fit a book: refusal 9. Document 01, "The game".
mod arrays;
mod slots;

ghost use Rattle.std.specs.Prelude.{◌≡◌};
ghost use Rattle.fitting.specs.Fitting.{fits_book};

use arrays::{counters_fit, routines_in, signals_fit};
use game::Game;
use layout::{MOST_ROUTINES, counts_of, limits_in};
use slots::{Limited, Slot};

// Whether a game fits a book. For a book that is refused the answer is the test's, and says nothing.
pub fn fits(book: &[u8], game: Game) -> bool
    ensures { result ≡ fits_book book.now game }
{
    let counts = game.counts;
    if counts != counts_of(book) {
        return false;
    }
    let Some(listed) = routines_in(&game.listed, counts.routines) else {
        return false;
    };
    let Some(starting) = routines_in(&game.starting, counts.routines) else {
        return false;
    };
    if !counters_fit(&game.counters, counts.counters)
        || !signals_fit(&game.broadcast, counts.signals)
    {
        return false;
    }
    let limits = limits_in(book);
    let limited = Limited {
        book,
        limits: &limits,
    };
    // By number: the flags of the two lists are more than the routines, so that a zip of the three is no plainer.
    for routine in 0..MOST_ROUTINES {
        let slot = Slot {
            routine,
            x: game.routines[routine],
            listed: listed[routine],
            starting: starting[routine],
        };
        if !limited.slot_fits(slot, counts.routines) {
            return false;
        }
    }
    true
}
