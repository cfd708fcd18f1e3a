#![tactic(auto)]
// A game that a program keeps as bytes: its stored form at the front of a buffer that is lent with the stored game's length. What is told
// of it, set-up and orders. Document 02, Paper 2, gives the form.
ghost use Rattle.std.specs.Prelude.{◌≡◌, true, IfOk};
ghost use Rattle.verdicts.specs.Verdicts.{verdict_of};
ghost use Rattle.stored_games.specs.Forms.{form1};
ghost use Rattle.stored_games.specs.Reading.{game_in, is_formed};
ghost use Rattle.stored_games.specs.Calls.{store_answer};
ghost use Rattle.kept_games.specs.Kept.{kept_in, kept_verdict, end_in, kept_length, set_up_kept, order_kept};

use game::{Game, blank_game};
use loading::in_form_1;
use ordering::order;
use setup::set_up;
use stored_games::form_1;
use storing::{Stored, store_fitting};
use verdicts::{Refusal, Verdict, verdict_of};

// The bytes of the kept game: none where the buffer has not so many. Buffer and length stay two: README and c/zulqenat.h name them so.
fn kept_in(buffer: &[u8], length: usize) -> &[u8]
    ensures { result.now ≡ kept_in buffer.now length }
{
    if buffer.len() < length {
        return &buffer[..0];
    }
    &buffer[..length]
}

// Whether the bytes of the kept game have the form: 13.
pub fn is_kept(buffer: &[u8], length: usize) -> bool
    ensures { result ≡ is_formed form1 (kept_in buffer.now length) }
{
    in_form_1(kept_in(buffer, length)).is_formed()
}

// The kept game, whose bytes have the form.
pub fn kept_game(buffer: &[u8], length: usize) -> Game
    requires { is_formed form1 (kept_in buffer.now length) ≡ true }
    ensures { result ≡ game_in form1 (kept_in buffer.now length) }
{
    in_form_1(kept_in(buffer, length)).game()
}

// The kept game, where its bytes are a stored game that fits the book: 1 to 7, 13, 9.
pub fn read_kept(book: &[u8], buffer: &[u8], length: usize) -> Result<Game, Refusal>
    ensures told { verdict_of result ≡ kept_verdict book.now buffer.now length }
    ensures game { IfOk result (λ g. g ≡ game_in form1 (kept_in buffer.now length)) }
{
    in_form_1(kept_in(buffer, length)).read(book)
}

// Whether the bytes of the kept game are a stored game that fits the book.
pub fn kept_verdict(book: &[u8], buffer: &[u8], length: usize) -> Verdict
    ensures { result ≡ kept_verdict book.now buffer.now length }
{
    verdict_of(read_kept(book, buffer, length))
}

// How long the stored game at the front of a buffer is, where its length was not kept: 1 to 7, 13, 9.
pub fn kept_length(book: &[u8], buffer: &[u8]) -> Stored
    ensures { (result.verdict ≡ kept_verdict book.now buffer.now (end_in buffer.now))
        × (result.length ≡ kept_length book.now buffer.now) }
{
    let end = in_form_1(buffer).parts().end;
    Stored::from(read_kept(book, buffer, end).and(Ok(end)))
}

// Sets up a game, which replaces what is at the buffer's front: 1 to 7, 14. The verdict is looked at by its number, here and in
// `order_kept`: `set_up` and `order` answer C's Outcome.
pub fn set_up_kept(book: &[u8], buffer: &mut [u8]) -> Stored
    ensures { store_answer result.verdict result.length buffer.new ≡ set_up_kept book.now buffer.old }
{
    let given = set_up(book, blank_game());
    let told = given.verdict;
    if told.number != 0 {
        return Stored {
            verdict: told,
            length: 0,
        };
    }
    Stored::from(store_fitting(form_1(), book, given.game, buffer))
}

// Gives the kept game an order: 1 to 7, 13, 9, 8, 14. The kind and the number may be anything: they are numbers, as C gives them.
pub fn order_kept(book: &[u8], buffer: &mut [u8], length: usize, kind: u32, number: u32) -> Stored
    ensures { store_answer result.verdict result.length buffer.new
        ≡ order_kept book.now buffer.old length kind number }
{
    let game = match read_kept(book, buffer, length) {
        Ok(game) => game,
        Err(refusal) => return Stored::from(Err(refusal)),
    };
    let next = order(book, game, kind, number);
    let verdict = next.verdict;
    if verdict.number != 0 {
        return Stored { verdict, length: 0 };
    }
    Stored::from(store_fitting(form_1(), book, next.game, buffer))
}
