// A turn of a routine: rules 33 and 34.
ghost use Rattle.std.specs.Prelude.{◌≡◌, Bool, false, not, ◌||◌, List, ℕ, ◌+◌, ◌*◌, ◌/◌, ◌<◌, ◌≤◌, ℤ, eqb, length, get_or};
ghost use Rattle.numbers.specs.Numbers.{word_limit};
ghost use Rattle.kinds.specs.Steps.{step_bytes};
ghost use Rattle.layout.specs.Layout.{header_bytes, entry_bytes, most_routines};
ghost use Rattle.directory.specs.Directory.{step_count, routine_from, routine_steps};
ghost use Rattle.game.specs.Game as stage;
ghost use Rattle.game.specs.declared.Game.{Game};
ghost use Rattle.round.specs.Rounds.{most_ticks, stage_after, with_end};
ghost use Rattle.round.specs.Rounds as rounds;
ghost use Rattle.tables.specs.Tables.{row_at, stages_row, suspended_row, state_in, WholeIn};
ghost use Rattle.passing.specs.Effects.{marks_of};
ghost use Rattle.passing.specs.Turns.{runs, run_of, position_in, Roomy, Playable, Ready, TurnAsks, turned, turned_by};

use crate::effects::apply;
use game::{CONTINUING, ENDED, RESTED};
use kinds::STEP_BYTES;
use layout::{ENTRY_BYTES, HEADER_BYTES};
use numbers::half;
use round::{Act, Ending, Position};
use tables::{Field, Flag, Tables};
use ticking::{fresh, tick};

// The steps that a routine takes in a turn: how they end, and where they leave the routine.
fn run(
    steps: &[u8],
    routine: usize,
    eoi: bool,
    tables: &mut Tables,
    given: &mut [i32],
    marks: &mut [i32],
) -> (Ending, Position)
    requires whole { WholeIn (length given.old / 2) tables.old }
    requires routine_lt_most_routines { (routine < most_routines) × (Playable steps.now) }
    requires roomy { (g : Game) × Roomy (length given.old / 2) (run_of (most_ticks steps.now) routine steps.now
        (position_in tables.old.flags tables.old.fields routine)
        (state_in g tables.old given.old eoi) (marks_of marks.old tables.old.tally.marks)).state }
    ensures marks_after { (g : Game) →
        runs result.0 result.1 (state_in g tables.new given.new eoi) (marks_of marks.new tables.new.tally.marks)
        ≡ run_of (most_ticks steps.now) routine steps.now
        (position_in tables.old.flags tables.old.fields routine)
        (state_in g tables.old given.old eoi) (marks_of marks.old tables.old.tally.marks) }
    ensures whole_2 { WholeIn (length given.old / 2) tables.new }
    ensures given_len_unchanged { length given.new ≡ length given.old }
{
    let mut x = Position {
        place: tables.field(Field::Place, routine),
        begun: tables.flag(Flag::Begun, routine),
        left: tables.field(Field::Left, routine),
    };
    for _taken in 0..steps.len() / STEP_BYTES + 1 {
        match tick(steps, x, eoi, tables, given) {
            Act::Goes(next, effect) => {
                apply(effect, routine, tables, given, marks);
                x = fresh(next);
            }
            Act::Halts(ending, y) => return (ending, y),
        }
    }
    (Ending::Continued, x)
}

// The stage in which a turn leaves its routine: the status of rule 34. It is a number and no enum, as in game::Routine, which C reads.
fn stage_after(ending: Ending) -> usize
    ensures { (result ≡ stage_after ending) × (result < word_limit) }
{
    usize::from(match ending {
        Ending::Ended => ENDED,
        Ending::Rested | Ending::Missed => RESTED,
        Ending::Continued => CONTINUING,
    })
}

// Rule 34: the end of a routine gives its end signal and is a move. That the routine is one of most_routines stays a clause, here and in
// `run`: the number comes from a byte of a list, and a type would be made anew at each turn.
fn end_with(ending: Ending, routine: usize, tables: &mut Tables)
    requires { routine < most_routines }
    ensures eoi_after { (g : Game) (given : List ℤ) (eoi : Bool) →
        state_in g tables.new given eoi ≡ with_end ending routine (state_in g tables.old given eoi) }
    ensures whole { (room : ℕ) → WholeIn room tables.old → WholeIn room tables.new }
    ensures marks_unchanged { tables.new.tally.marks ≡ tables.old.tally.marks }
{
    if matches!(ending, Ending::Ended) {
        tables.put_flag(Flag::Ends, routine, true);
        tables.tally.moved = true;
    }
}

// Rule 33: a routine that is suspended or not in stage 1 is passed over.
fn is_passed_over(tables: &Tables, routine: usize) -> bool
    ensures { result ≡ (get_or (row_at suspended_row tables.now.flags) routine false
        || not (eqb (get_or (row_at stages_row tables.now.fields) routine 0) stage.continuing)) }
{
    tables.flag(Flag::Suspended, routine)
        || tables.field(Field::Stage, routine) != usize::from(CONTINUING)
}

// The steps of a routine of an accepted book, where its entry says: the book is not tested again.
fn steps_of(book: &[u8], routine: usize) -> &[u8]
    requires routine_in_bounds { header_bytes + entry_bytes * (routine + 1) ≤ length book.now }
    requires routine_in_bounds_2 { routine_from book.now routine + step_bytes * step_count book.now routine ≤ length book.now }
    ensures { result.now ≡ routine_steps book.now routine }
{
    let entry = HEADER_BYTES + ENTRY_BYTES * routine;
    let steps = HEADER_BYTES + ENTRY_BYTES * half(book[0], book[1]);
    let from = steps + STEP_BYTES * half(book[entry], book[entry + 1]);
    let to = from + STEP_BYTES * half(book[entry + 2], book[entry + 3]);
    &book[from..to]
}

// What a pass does with a listed routine: it is passed over, which answers None, or takes its steps and is left where they halt.
pub fn turn(
    book: &[u8],
    routine: usize,
    eoi: bool,
    tables: &mut Tables,
    given: &mut [i32],
    marks: &mut [i32],
) -> Option<Ending>
    requires whole { WholeIn (length given.old / 2) tables.old }
    requires ready { Ready book.now routine }
    requires turn_asks { (g : Game) × TurnAsks (length given.old / 2) book.now routine (state_in g tables.old given.old eoi) }
    ensures turn_after { (g : Game) →
        turned (state_in g tables.new given.new eoi) (marks_of marks.new tables.new.tally.marks) result
        ≡ turned_by (rounds.turn book.now routine (state_in g tables.old given.old eoi))
        (marks_of marks.old tables.old.tally.marks) }
    ensures whole_2 { WholeIn (length given.old / 2) tables.new }
    ensures given_len_unchanged { length given.new ≡ length given.old }
{
    if is_passed_over(tables, routine) {
        return None;
    }
    let steps = steps_of(book, routine);
    let (ending, y) = run(steps, routine, eoi, tables, given, marks);
    tables.put_field(Field::Place, routine, y.place);
    tables.put_field(Field::Left, routine, y.left);
    tables.put_field(Field::Stage, routine, stage_after(ending));
    tables.put_flag(Flag::Begun, routine, y.begun);
    end_with(ending, routine, tables);
    Some(ending)
}
