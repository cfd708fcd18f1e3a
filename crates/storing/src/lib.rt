#![tactic(auto)]
// Storing a game as bytes. Document 02, Paper 2.
mod bits;
mod parts;

ghost use Rattle.std.specs.Prelude.{◌≡◌, ◌≤◌, length};
ghost use Rattle.book.specs.Accepted.{Accepted};
ghost use Rattle.lines.specs.Lines.{used_of};
ghost use Rattle.fitting.specs.Fits.{Fits};
ghost use Rattle.stored_games.specs.Forms.{form1};
ghost use Rattle.stored_games.specs.Stored.{stored, length_of};
ghost use Rattle.stored_games.specs.Calls.{store_answer, storing};
ghost use Rattle.storing.specs.Puts.{Put, WithinLimits};
ghost use Rattle.storing.specs.Answers.{answered};

use fitting::fits;
use game::Game;
use lines::used;
use parts::{Writer, stored_length};
use reading::read_book;
use stored_games::{UsableForm, form_1};
use verdicts::{Refusal, Verdict, as_verdict};

// What storing answers: the verdict, and how many bytes are written. No Result: `zulqenat_set_up` and `zulqenat_order` give it to C.
#[repr(C)]
#[derive(Clone, Copy)]
pub struct Stored {
    pub verdict: Verdict,
    pub length: usize,
}

// The length is 0 after a refusal.
impl From<Result<usize, Refusal>> for Stored {
    ghost use Rattle.std.specs.Prelude.{ℕ, List};

    ghost from_gives = { λ answer stored. (out : List ℕ) → store_answer stored.verdict stored.length out ≡ answered answer out };

    fn from(answer: Result<usize, Refusal>) -> Stored {
        match answer {
            Ok(length) => Stored {
                verdict: as_verdict(0, 0),
                length,
            },
            Err(refusal) => Stored {
                verdict: Verdict::from(refusal),
                length: 0,
            },
        }
    }
}

// Writes a game to the front of a buffer that is long enough, and answers how many bytes that takes.
fn write_game(form: UsableForm, game: Game, out: &mut [u8]) -> usize
    requires within_limits { WithinLimits game.counts }
    requires starting_in_bounds { length_of form.form game.counts (used_of game.listed) (used_of game.starting) ≤ length out.old }
    ensures { Put 0 (stored form.form game) out.old out.new result }
{
    let mut writer = Writer { out, end: 0 };
    writer.put_game(form, game);
    writer.end
}

// Stores a game that fits an accepted book, in a form, and answers its length: of the checks only 14 is left. A refusal leaves the buffer
// as lent. That the book is accepted and the game fits it stays a clause: `round` has it for
// `zulqenat_round`, which takes both by value.
pub fn store_fitting(
    form: UsableForm,
    book: &[u8],
    game: Game,
    out: &mut [u8],
) -> Result<usize, Refusal>
    requires { Accepted book.now × Fits book.now game }
    ensures { answered result out.new ≡ storing form.form book.now game out.old }
{
    let counts = game.counts;
    let listed = game.listed;
    let starting = game.starting;
    if out.len() < stored_length(form, counts, used(listed), used(starting)) {
        return Err(Refusal::ShortBuffer);
    }
    Ok(write_game(form, game, out))
}

// Stores a game, in a form: 1 to 7, 9, and last 14. A refusal leaves the buffer as lent.
fn store_in(form: UsableForm, book: &[u8], game: Game, out: &mut [u8]) -> Result<usize, Refusal>
    ensures { answered result out.new ≡ storing form.form book.now game out.old }
{
    read_book(book)?;
    if !fits(book, game) {
        return Err(Refusal::Unfit);
    }
    store_fitting(form, book, game, out)
}

// Stores a game, in form 1.
pub fn store(book: &[u8], game: Game, out: &mut [u8]) -> Stored
    ensures { store_answer result.verdict result.length out.new ≡ storing form1 book.now game out.old }
{
    Stored::from(store_in(form_1(), book, game, out))
}
