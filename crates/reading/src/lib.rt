#![tactic(auto)]
// Books of routines: read from any bytes, and shown. Document 01, "The book" and "Turned down because of the input".
mod checks;
mod readers;

ghost use Rattle.std.specs.Prelude.{◌≡◌, ◌+◌};
ghost use Rattle.verdicts.specs.Verdicts.{verdict_of};
ghost use Rattle.book.specs.Book.{book_verdict, shown, shown_from};

use checks::Laid;
use directory::routine_steps;
use verdicts::{Refusal, first_refused};

// Reads a book: the first refusal of 1 to 7 that applies. A 5 comes before every 6, so a book that nests wrongly is looked through for a
// wrong step; in any other book the readers of blocks have met the first one themselves.
pub fn read_book(book: &[u8]) -> Result<(), Refusal>
    ensures { verdict_of result ≡ book_verdict book.now }
{
    let laid = Laid::of(book)?;
    let Err(refusal) = laid.check_blocks() else {
        return Ok(());
    };
    match refusal {
        Refusal::WrongNesting(_) => first_refused(laid.check_steps(), Err(refusal)),
        _ => Err(refusal),
    }
}

// The steps of a routine, as that part of the lent book; the empty part at its start for a refused book or a number not
// below R. The second promise says which part: the same memory, from that byte on.
pub fn show(book: &[u8], routine: usize) -> &[u8]
    ensures bytes { result.now ≡ shown book.now routine }
    ensures place { (result.ref_ptr.0 ≡ book.entry.ref_ptr.0) × (result.ref_ptr.1 ≡ book.entry.ref_ptr.1 + shown_from book.now routine) }
{
    if read_book(book).is_err() || layout::routines(book) <= routine {
        return &book[..0];
    }
    routine_steps(book, routine)
}
