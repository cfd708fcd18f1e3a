#![tactic(auto)]
// The call with which the benches read a stored game.
ghost use Rattle.std.specs.Prelude.{◌≡◌};
ghost use Rattle.fitting.specs.Fits.{GivesFitting};
ghost use Rattle.stored_games.specs.Forms.{form1};
ghost use Rattle.stored_games.specs.Calls.{loaded};

use game::{Game, Outcome};

// Replaces a lent game by a stored one: the contract is that of `loading::load`.
#[unsafe(no_mangle)]
pub extern "C" fn zulqenat_load(book: &[u8], bytes: &[u8], game: Game) -> Outcome
    ensures { (result ≡ loaded form1 book.now bytes.now game) × GivesFitting book.now result }
{
    loading::load(book, bytes, game)
}
