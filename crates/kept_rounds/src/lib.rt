#![tactic(auto)]
// A round of a game that a program keeps as bytes.
ghost use Rattle.std.specs.Prelude.{ℕ, ◌≤◌, ◌≡◌, List, leb, ℤ, length};
ghost use Rattle.verdicts.specs.Verdicts.{told};
ghost use Rattle.book.specs.Accepted.{Accepted};
ghost use Rattle.fitting.specs.Fits.{Fits};
ghost use Rattle.stored_games.specs.Forms.{form1};
ghost use Rattle.stored_games.specs.Stored.{stored};
ghost use Rattle.round.specs.Rounds as rounds;
ghost use Rattle.round.specs.Answers.{most_lost};
ghost use Rattle.kept_games.specs.Kept.{refused_kept, played_from, play_kept};
ghost use Rattle.kept_rounds.specs.Rounds.{kept_round, kept_answer};

use game::Game;
use keeping::read_kept;
use kept_games::MOST_STORED;
use layout::MOST_STEPS;
use playing::{NUMBERS_PER_PAIR, mark_steps, round};
use stored_games::form_1;
use storing::store_fitting;
use verdicts::{Refusal, Verdict, as_verdict};

// Room for the marks of every round.
const MOST_MARK_NUMBERS: usize = NUMBERS_PER_PAIR * MOST_STEPS;

// What a round of a kept game answers: the verdict, the stored game's new length, the passes, the count of marks, and how much its
// additions cut off. No Result: `zulqenat_play` gives it to C.
#[repr(C)]
#[derive(Clone, Copy)]
pub struct Round {
    pub verdict: Verdict,
    pub length: usize,
    pub passes: usize,
    pub marks: usize,
    pub lost: usize,
}

// "After a refusal game and mark buffer are as lent, and passes and count of marks are 0."
fn turned_down(refusal: Refusal) -> Round
    ensures { (buffer : List ℕ) (marks : List ℤ) → kept_round result buffer marks ≡ refused_kept (told refusal) buffer marks }
{
    Round {
        verdict: Verdict::from(refusal),
        length: 0,
        passes: 0,
        marks: 0,
        lost: 0,
    }
}

// Whether the game behind a round can be stored in so many bytes: the round is played without leaving its marks.
fn has_room(book: &[u8], game: Game, room: usize) -> bool
    requires { Accepted book.now × Fits book.now game }
    ensures { result ≡ leb (length (stored form1 (rounds.round book.now game).played.state.game)) room }
{
    let mut marks = [0i32; MOST_MARK_NUMBERS];
    let mut buffer = [0u8; MOST_STORED];
    let played = round(book, game, &mut marks);
    match store_fitting(form_1(), book, played.game, &mut buffer) {
        Ok(length) => length <= room,
        Err(_) => false,
    }
}

// A round of a game that fits an accepted book, which is then stored: 10, 14. No round is played into a buffer for marks before it is known
// that the game behind it has room, and every game has in a buffer of MOST_STORED bytes.
fn play_fitting(
    book: &[u8],
    game: Game,
    buffer: &mut [u8],
    marks: &mut [i32],
) -> Result<Round, Refusal>
    requires { Accepted book.now × Fits book.now game }
    ensures { kept_answer result buffer.new marks.new
        ≡ played_from book.now game buffer.old marks.old }
{
    if marks.len() < NUMBERS_PER_PAIR * mark_steps(book) {
        return Err(Refusal::ShortMarks);
    }
    if buffer.len() < MOST_STORED && !has_room(book, game, buffer.len()) {
        return Err(Refusal::ShortBuffer);
    }
    let played = round(book, game, marks);
    let length = store_fitting(form_1(), book, played.game, buffer)?;
    Ok(Round {
        verdict: as_verdict(0, 0),
        length,
        passes: played.passes,
        marks: played.marks,
        lost: played.lost,
    })
}

// The round of the kept game, with every check made once.
fn play_checked(
    book: &[u8],
    buffer: &mut [u8],
    length: usize,
    marks: &mut [i32],
) -> Result<Round, Refusal>
    ensures { kept_answer result buffer.new marks.new
        ≡ play_kept book.now buffer.old length marks.old }
{
    let game = read_kept(book, buffer, length)?;
    play_fitting(book, game, buffer, marks)
}

// Plays a round of the kept game: 1 to 7, 13, 9, 10, 14.
pub fn play_kept(book: &[u8], buffer: &mut [u8], length: usize, marks: &mut [i32]) -> Round
    ensures marks_after { kept_round result buffer.new marks.new
        ≡ play_kept book.now buffer.old length marks.old }
    ensures lost_le_most_lost { result.lost ≤ most_lost }
{
    match play_checked(book, buffer, length, marks) {
        Ok(round) => round,
        Err(refusal) => turned_down(refusal),
    }
}
