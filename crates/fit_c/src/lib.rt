#![tactic(auto)]
// The call with which the benches time whether a game fits.
ghost use Rattle.std.specs.Prelude.{◌≡◌};
ghost use Rattle.fitting.specs.Fitting.{fits_book};

use game::Game;

// Whether a game fits a book: the contract is that of `fitting::fits`.
#[unsafe(no_mangle)]
pub extern "C" fn zulqenat_fits(book: &[u8], game: Game) -> bool
    ensures { result ≡ fits_book book.now game }
{
    fitting::fits(book, game)
}
