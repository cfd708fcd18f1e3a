#![tactic(auto)]
// The call with which the benches store a game.
ghost use Rattle.std.specs.Prelude.{◌≡◌};
ghost use Rattle.stored_games.specs.Forms.{form1};
ghost use Rattle.stored_games.specs.Calls.{store_answer, storing};

use game::Game;
use storing::Stored;

// Stores a game: the contract is that of `storing::store`.
#[unsafe(no_mangle)]
pub extern "C" fn zulqenat_store(book: &[u8], game: Game, out: &mut [u8]) -> Stored
    ensures { store_answer result.verdict result.length out.new ≡ storing form1 book.now game out.old }
{
    storing::store(book, game, out)
}
