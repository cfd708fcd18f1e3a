#![tactic(auto)]
// The call with which the benches time a round without the checks. Like `playing::round` it asks for what the checks see to.
ghost use Rattle.std.specs.Prelude.{◌≡◌, ◌≤◌, length};
ghost use Rattle.verdicts.specs.Verdicts.{accepted};
ghost use Rattle.book.specs.Accepted.{Accepted};
ghost use Rattle.fitting.specs.Fits.{Fits};
ghost use Rattle.round.specs.Rounds.{round};
ghost use Rattle.round.specs.Answers.{space_for, played_out};
ghost use Rattle.playing.specs.Playing.{answered};

use game::Game;
use playing::Played;

// Plays a round of an accepted book on a game that fits it, with room for its marks: the contract is that of `playing::round`.
#[unsafe(no_mangle)]
pub extern "C" fn zulqenat_round(book: &[u8], game: Game, marks: &mut [i32]) -> Played
    requires { Accepted book.now × Fits book.now game × (space_for book.now ≤ length marks.old) }
    ensures { answered result marks.new ≡ played_out accepted (round book.now game) marks.old }
{
    playing::round(book, game, marks)
}
