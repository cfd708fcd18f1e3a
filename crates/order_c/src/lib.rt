#![tactic(auto)]
// The call with which the benches give a game an order.
ghost use Rattle.std.specs.Prelude.{◌≡◌};
ghost use Rattle.fitting.specs.Fits.{GivesFitting};
ghost use Rattle.orders.specs.Orders.{ordered};

use game::{Game, Outcome};

// Gives a game an order: the contract is that of `ordering::order`.
#[unsafe(no_mangle)]
pub extern "C" fn zulqenat_order(book: &[u8], game: Game, kind: u32, number: u32) -> Outcome
    ensures { (result ≡ ordered book.now game kind number) × GivesFitting book.now result }
{
    ordering::order(book, game, kind, number)
}
