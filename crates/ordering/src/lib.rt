#![tactic(auto)]
// Giving a game an outside order. Document 01, "The game".
ghost use Rattle.std.specs.Prelude.{◌≡◌, ◌<◌, IfOk};
ghost use Rattle.verdicts.specs.Verdicts.{verdict_of};
ghost use Rattle.fitting.specs.Fits.{GivesFitting};
ghost use Rattle.orders.specs.Orders.{order_count, order_verdict, obeyed, ordered};
ghost use Rattle.ordering.specs.Kinds.{number_of, IsKind, most_named};

use fitting::fits;
use game::{Game, Outcome, with_resume, with_start, with_stop, with_suspend};
use kinds::Counts;
use layout::counts_of;
use reading::read_book;
use verdicts::{Refusal, verdict_of};

// The kinds of an order.
#[derive(Clone, Copy)]
pub enum OrderKind {
    Broadcast,
    Start,
    Stop,
    Suspend,
    Resume,
}

// The kind that a number stands for; any other is turned down as an order of unknown kind.
impl TryFrom<u32> for OrderKind {
    type Error = Refusal;

    ghost try_from_gives = { IsKind };

    fn try_from(kind: u32) -> Result<OrderKind, Refusal> {
        match kind {
            0 => Ok(OrderKind::Broadcast),
            1 => Ok(OrderKind::Start),
            2 => Ok(OrderKind::Stop),
            3 => Ok(OrderKind::Suspend),
            4 => Ok(OrderKind::Resume),
            _ => Err(Refusal::WrongOrder),
        }
    }
}

impl OrderKind {
    // How many numbers an order of this kind may name.
    fn count(self, counts: Counts) -> usize
        ensures { result ≡ order_count counts (number_of self) }
    {
        match self {
            OrderKind::Broadcast => counts.signals,
            OrderKind::Start => counts.routines,
            OrderKind::Stop => counts.routines,
            OrderKind::Suspend => counts.routines,
            OrderKind::Resume => counts.routines,
        }
    }
}

// The kind of an order that is not turned down, or the refusal: checks 1 to 7, then 9, then 8.
fn check_order(book: &[u8], game: Game, kind: u32, number: u32) -> Result<OrderKind, Refusal>
    ensures told { verdict_of result ≡ order_verdict book.now game kind number }
    ensures kind { IfOk result (λ k. kind ≡ number_of k) }
{
    read_book(book)?;
    if !fits(book, game) {
        return Err(Refusal::Unfit);
    }
    let order = OrderKind::try_from(kind)?;
    // By `as`, here and in `obey`: usize has no From<u32>.
    if order.count(counts_of(book)) <= number as usize {
        return Err(Refusal::WrongOrder);
    }
    Ok(order)
}

// A game obeys an order: it joins its list for the next round. Its number is below the most that there can be of its kind.
#[tactic(auto, unfolding(orders::specs::Orders::obeyed))]
fn obey(game: &mut Game, order: OrderKind, number: u32)
    requires { number < most_named order }
    ensures { game.new ≡ obeyed game.old (number_of order) number }
{
    let at = number as usize;
    match order {
        OrderKind::Broadcast => {
            game.broadcast[at] = true;
        }
        OrderKind::Start => {
            let stage = game.routines[at].stage;
            // The clause says that it fits a byte; try_from would give an Err to handle.
            game.starting = with_start(game.starting, number as u8, stage);
        }
        OrderKind::Stop => {
            game.routines[at] = with_stop(game.routines[at]);
        }
        OrderKind::Suspend => {
            game.routines[at] = with_suspend(game.routines[at]);
        }
        OrderKind::Resume => {
            game.routines[at] = with_resume(game.routines[at]);
        }
    }
}

// Gives a game an outside order for the next round; a refusal hands the game back as lent. The kind and the number may be anything:
// they are numbers, as C gives them (`zulqenat_order`). The game that is handed back is copied ahead of the checks, and the order is
// written into it: behind the checks the game would be copied more often.
pub fn order(book: &[u8], game: Game, kind: u32, number: u32) -> Outcome
    ensures { (result ≡ ordered book.now game kind number) × GivesFitting book.now result }
{
    let mut next = game;
    let checked = check_order(book, game, kind, number);
    if let Ok(order) = checked {
        obey(&mut next, order, number);
    }
    Outcome {
        verdict: verdict_of(checked),
        game: next,
    }
}
