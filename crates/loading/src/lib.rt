#![tactic(auto)]
// Reading a stored game. Document 02, Paper 2.
mod fields;
pub mod formed;
mod slots;

ghost use Rattle.std.specs.Prelude.{◌≡◌, IfOk};
ghost use Rattle.verdicts.specs.Verdicts.{verdict_of};
ghost use Rattle.fitting.specs.Fits.{GivesFitting};
ghost use Rattle.stored_games.specs.Forms.{form1};
ghost use Rattle.stored_games.specs.Reading.{game_in};
ghost use Rattle.stored_games.specs.Calls.{stored_verdict, load_verdict, loaded};

use fitting::fits;
use formed::StoredBytes;
use game::{Game, Outcome};
use reading::read_book;
use stored_games::form_1;
use verdicts::{Refusal, Verdict, as_verdict, verdict_of};

impl StoredBytes<'_> {
    // The game that the bytes stand for, where it fits a book: 13, then 9.
    #[tactic(auto, unfolding(stored_games::specs::Calls::stored_verdict))]
    pub fn fitting_game(&self, book: &[u8]) -> Result<Game, Refusal>
        ensures told { verdict_of result ≡ stored_verdict self.now.form.form book.now self.now.bytes.now }
        ensures game { IfOk result (λ g. g ≡ game_in self.now.form.form self.now.bytes.now) }
    {
        if !self.is_formed() {
            return Err(Refusal::WrongForm);
        }
        let game = self.game();
        if fits(book, game) {
            Ok(game)
        } else {
            Err(Refusal::Unfit)
        }
    }

    // The same, with the checks of the book first: 1 to 7, 13, 9.
    #[tactic(auto, unfolding(stored_games::specs::Calls::load_verdict))]
    pub fn read(&self, book: &[u8]) -> Result<Game, Refusal>
        ensures told { verdict_of result ≡ load_verdict self.now.form.form book.now self.now.bytes.now }
        ensures game { IfOk result (λ g. g ≡ game_in self.now.form.form self.now.bytes.now) }
    {
        read_book(book)?;
        self.fitting_game(book)
    }
}

// Bytes that are read in form 1.
pub fn in_form_1<'a>(bytes: &'a [u8]) -> StoredBytes<'a>
    ensures { (result.form.form ≡ form1) × (result.bytes.now ≡ bytes.now) }
{
    StoredBytes {
        form: form_1(),
        bytes,
    }
}

// Whether bytes are a stored game that fits a book: 13 and 9. For a book that is refused only a 13 says something.
pub fn stored_verdict(book: &[u8], bytes: &[u8]) -> Verdict
    ensures { result ≡ stored_verdict form1 book.now bytes.now }
{
    verdict_of(in_form_1(bytes).fitting_game(book))
}

// Replaces a lent game by one stored in form 1: 1 to 7, 13, 9. A refusal hands the game back as lent.
pub fn load(book: &[u8], bytes: &[u8], game: Game) -> Outcome
    ensures { (result ≡ loaded form1 book.now bytes.now game) × GivesFitting book.now result }
{
    match in_form_1(bytes).read(book) {
        Ok(next) => Outcome {
            verdict: as_verdict(0, 0),
            game: next,
        },
        Err(refusal) => Outcome {
            verdict: Verdict::from(refusal),
            game,
        },
    }
}
