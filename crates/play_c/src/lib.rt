#![tactic(auto)]
// The call with which the benches play a round, with its checks.
ghost use Rattle.std.specs.Prelude.{◌≡◌, ◌≤◌};
ghost use Rattle.verdicts.specs.Verdicts.{accepted};
ghost use Rattle.round.specs.Answers.{most_lost, answer};
ghost use Rattle.round.specs.claims.Demand.{Demand3};
ghost use Rattle.rules.specs.Claims.{ByTheRules};
ghost use Rattle.playing.specs.Playing.{answered};

use game::Game;
use playing::Played;

// Plays a round: the contract is that of `playing::play`.
#[unsafe(no_mangle)]
pub extern "C" fn zulqenat_play(book: &[u8], game: Game, marks: &mut [i32]) -> Played
    ensures marks_after { answered result marks.new ≡ answer book.now game marks.old }
    ensures lost_le_most_lost { result.lost ≤ most_lost }
    ensures demand3 { result.verdict ≡ accepted → Demand3 book.now game result.passes result.game }
    ensures by_the_rules { result.verdict ≡ accepted →
        ByTheRules book.now game marks.old (answered result marks.new) }
{
    playing::play(book, game, marks)
}
