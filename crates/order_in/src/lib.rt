#![tactic(auto)]
// Giving an outside order to a game where it is kept. Document 01, "The game".
ghost use Rattle.std.specs.Prelude.{◌≡◌};
ghost use Rattle.verdicts.specs.Verdicts.{accepted};
ghost use Rattle.fitting.specs.Fits.{Fits};
ghost use Rattle.orders.specs.Orders.{ordered};

use game::Game;
use verdicts::Verdict;

// Gives the order to a game where it is kept; a refusal leaves it as it was. The kind and the number may be anything:
// they are two numbers, as `zulqenat_order` is given them.
pub fn order_in(book: &[u8], game: &mut Game, kind: u32, number: u32) -> Verdict
    ensures { (result ≡ (ordered book.now game.old kind number).verdict)
        × (game.new ≡ (ordered book.now game.old kind number).game)
        × (result ≡ accepted → Fits book.now game.new) }
{
    let outcome = ordering::order(book, *game, kind, number);
    *game = outcome.game;
    outcome.verdict
}
