#![tactic(auto)]
// The calls with which a C program checks a book, and names the routines that nobody starts. `zulqenat` exports the same two: this
// archive has them alone, and exported names stay.
ghost use Rattle.std.specs.Prelude.{◌≡◌};
ghost use Rattle.book.specs.Book.{book_verdict};
ghost use Rattle.unstarted.specs.Unstarted.{names_for, names};

use unstarted::UnstartedNames;

// The number and the place of the first refusal that applies; both 0 where the book is accepted.
#[unsafe(no_mangle)]
pub extern "C" fn zulqenat_check_book(book: &[u8]) -> verdicts::Verdict
    ensures { result ≡ book_verdict book.now }
{
    verdicts::verdict_of(reading::read_book(book))
}

// The routines that no chain of start steps leads to from routine 0: the contract is that of `unstarted::unstarted`.
#[unsafe(no_mangle)]
pub extern "C" fn zulqenat_unstarted(book: &[u8], buffer: &mut [u8]) -> UnstartedNames
    ensures { names_for result.verdict result.count buffer.new ≡ names book.now buffer.old }
{
    unstarted::unstarted(book, buffer)
}
