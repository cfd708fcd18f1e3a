#![tactic(auto)]
// Playing a round: the fifth call.
ghost use Rattle.std.specs.Prelude.{◌≡◌, List, ◌≤◌, ◌/◌, length, ℤ, OnOk, IfErr};
ghost use Rattle.layout.specs.Layout.{steps_of, most_steps};
ghost use Rattle.verdicts.specs.Verdicts.{accepted, told};
ghost use Rattle.book.specs.Book.{steps_part};
ghost use Rattle.book.specs.Accepted.{Accepted};
ghost use Rattle.fitting.specs.Fits.{Fits};
ghost use Rattle.round.specs.Rounds as rounds;
ghost use Rattle.round.specs.Answers as answers;
ghost use Rattle.round.specs.claims.Demand.{Demand3};
ghost use Rattle.game.specs.declared.Game.{Game};
ghost use Rattle.rules.specs.Claims.{ByTheRules};
ghost use Rattle.opening.specs.Games.{Opened};
ghost use Rattle.playing.specs.Playing.{PassesDone, answered};

use fitting::fits;
use game::Game;
use kinds::STEP_BYTES;
use layout::{MOST_STEPS, steps, steps_from};
use lines::Line;
use opening::{finish, open, take};
use passing::all_passes;
use reading::read_book;
use tables::{FIELDS, FLAGS, Tables, Tally};
use verdicts::{Refusal, Verdict, as_verdict};

// "0 mark". A byte and no enum: steps are counted by their first byte, as the definition `mark_steps` has it, and none is decoded.
const OP_MARK: u8 = 0;

// Two numbers to a mark, and to a number given with its signal.
pub const NUMBERS_PER_PAIR: usize = 2;

// A step gives at most one number in a round, so a book of few steps needs but a small buffer for them.
const FEW_STEPS: usize = 64;

const SOME_STEPS: usize = 256;

const FEW_NUMBERS: usize = NUMBERS_PER_PAIR * FEW_STEPS;

const SOME_NUMBERS: usize = NUMBERS_PER_PAIR * SOME_STEPS;

const MANY_NUMBERS: usize = NUMBERS_PER_PAIR * MOST_STEPS;

// What playing a round answers: the verdict, the game, the passes, the count of marks, and how much its additions cut off.
// It has the verdict beside the game, and is no Result: play_c hands it to C.
#[repr(C)]
#[derive(Clone, Copy)]
pub struct Played {
    pub verdict: Verdict,
    pub game: Game,
    pub passes: usize,
    pub marks: usize,
    pub lost: usize,
}

// The passes of a round, and how many they are, with a buffer of this length for the numbers given: two for each.
fn passes_with<const N: usize>(
    book: &[u8],
    order: Line,
    tables: &mut Tables,
    marks: &mut [i32],
) -> usize
    requires room { (steps_of book.now ≤ N / 2) × (N / 2 ≤ most_steps) }
    requires opened { (g : Game) × Opened book.now g order tables.old }
    ensures { (g : Game) → Opened book.now g order tables.old → PassesDone book.now g tables.new result marks.old marks.new }
{
    let mut given = [0i32; N];
    all_passes(book, order, tables, &mut given, marks)
}

// The passes of a round, with room for at least as many numbers as the book has steps.
fn play_out(book: &[u8], order: Line, tables: &mut Tables, marks: &mut [i32]) -> usize
    requires { (g : Game) × Opened book.now g order tables.old }
    ensures { (g : Game) → Opened book.now g order tables.old → PassesDone book.now g tables.new result marks.old marks.new }
{
    let all = steps(book);
    if all <= FEW_STEPS {
        passes_with::<FEW_NUMBERS>(book, order, tables, marks)
    } else if all <= SOME_STEPS {
        passes_with::<SOME_NUMBERS>(book, order, tables, marks)
    } else {
        passes_with::<MANY_NUMBERS>(book, order, tables, marks)
    }
}

// A round on a game that fits an accepted book, with room for its marks: the round without the checks. What it asks for stays a
// clause: `zulqenat_round` takes book and game by value and asks for the same.
pub fn round(book: &[u8], game: Game, marks: &mut [i32]) -> Played
    requires { Accepted book.now × Fits book.now game × (answers.space_for book.now ≤ length marks.old) }
    ensures { answered result marks.new
        ≡ answers.played_out accepted (rounds.round book.now game) marks.old }
{
    // A variable of its own: a field that is an array put straight into a literal gets no proof.
    let counters = game.counters;
    let mut tables = Tables {
        flags: [false; FLAGS],
        fields: [0; FIELDS],
        counters,
        tally: Tally::default(),
    };
    let routines = game.routines;
    for (at, &routine) in routines[..game.counts.routines].iter().enumerate() {
        take(routine, at, &mut tables);
    }
    let order = open(game.listed, game.starting, game.broadcast, &mut tables);
    let passes = play_out(book, order, &mut tables, marks);
    Played {
        verdict: as_verdict(0, 0),
        game: finish(game.counts, routines, order, &tables),
        passes,
        marks: tables.tally.marks,
        lost: tables.tally.lost,
    }
}

// How many mark steps a book has.
pub fn mark_steps(book: &[u8]) -> usize
    requires { Accepted book.now }
    ensures { (result ≡ answers.mark_steps (steps_part book.now) (steps_of book.now)) × (result ≤ most_steps) }
{
    book[steps_from(book)..]
        .chunks_exact(STEP_BYTES)
        .filter(|step| matches!(step, [OP_MARK, ..]))
        .count()
}

// "After a refusal game and mark buffer are as lent, and passes and count of marks are 0." Document 02: "A refused round reports
// 0."
fn turned_down(verdict: Verdict, game: Game) -> Played
    ensures { (buffer : List ℤ) → answered result buffer ≡ answers.turned_down verdict game buffer }
{
    Played {
        verdict,
        game,
        passes: 0,
        marks: 0,
        lost: 0,
    }
}

// The first refusal that turns a round down: "a round checks 1 to 7, then 9, 10, 11". 11 is never told: no round gives more numbers than
// its book has steps.
fn check(book: &[u8], game: Game, marks: &[i32]) -> Result<(), Refusal>
    ensures refusal { IfErr result
        (λ refusal. answers.turned_down (told refusal) game marks.now ≡ answers.answer book.now game marks.now) }
    ensures passed { OnOk result
        (Accepted book.now × Fits book.now game × (answers.space_for book.now ≤ length marks.now)) }
{
    read_book(book)?;
    if !fits(book, game) {
        return Err(Refusal::Unfit);
    }
    if marks.len() < NUMBERS_PER_PAIR * mark_steps(book) {
        return Err(Refusal::ShortMarks);
    }
    Ok(())
}

// Plays a round. A refusal hands game and mark buffer back as lent.
pub fn play(book: &[u8], game: Game, marks: &mut [i32]) -> Played
    ensures marks_after { answered result marks.new ≡ answers.answer book.now game marks.old }
    ensures lost_le_most_lost { result.lost ≤ answers.most_lost }
    ensures demand3 { result.verdict ≡ accepted → Demand3 book.now game result.passes result.game }
    ensures by_the_rules { result.verdict ≡ accepted →
        ByTheRules book.now game marks.old (answered result marks.new) }
{
    match check(book, game, marks) {
        Ok(()) => round(book, game, marks),
        Err(refusal) => turned_down(Verdict::from(refusal), game),
    }
}
