#![tactic(auto)]
// The call with which the benches set up a game.
ghost use Rattle.std.specs.Prelude.{◌≡◌};
ghost use Rattle.fitting.specs.Fits.{GivesFitting};
ghost use Rattle.setup.specs.SetUp.{set_up};

use game::{Game, Outcome};

// Sets up a game: the contract is that of `setup::set_up`.
#[unsafe(no_mangle)]
pub extern "C" fn zulqenat_set_up(book: &[u8], game: Game) -> Outcome
    ensures { (result ≡ set_up book.now game) × GivesFitting book.now result }
{
    setup::set_up(book, game)
}
