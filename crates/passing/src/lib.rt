#![tactic(auto)]
// Turns, passes and the passes of a round, on the tables of a round. These functions serve the open call that plays a round and ask for
// what it has checked: a routine of an accepted book, and room for what the round leaves. That there is room is a clause (`WholeIn`) and no
// invariant of Tables, since it bounds a count by the slice that is lent beside them.
pub mod effects;
pub mod turns;

ghost use Rattle.std.specs.Prelude.{◌≡◌, Bool, true, false, ℕ, ◌/◌, ◌<◌, length};
ghost use Rattle.lines.specs.Lines.{used_of, item_at, entries_of};
ghost use Rattle.game.specs.declared.Game.{Game};
ghost use Rattle.round.specs.Rounds as rounds;
ghost use Rattle.tables.specs.Tables.{state_in, WholeIn};
ghost use Rattle.passing.specs.Effects.{marks_of};
ghost use Rattle.passing.specs.Turns.{Ready};
ghost use Rattle.passing.specs.Passes.{PassAsks, PassesAsk, passing, passed_by, passes, passes_by};

use layout::{MOST_ROUTINES, MOST_STEPS};
use lines::{Line, used};
use round::Ending;
use tables::Tables;
use turns::turn;

// The passes that a round may take; it never needs more.
const MOST_PASSES: usize = 2 + MOST_STEPS + MOST_ROUTINES;

// Whether a turn is done, not to be continued in another pass.
fn is_done(turn: Option<Ending>) -> bool
    ensures { result ≡ rounds.is_done turn }
{
    !matches!(turn, Some(Ending::Continued))
}

// One pass over the listed routines in order: rules 35 and 36. It answers whether all their turns are done.
pub fn pass(
    book: &[u8],
    order: Line,
    eoi: bool,
    tables: &mut Tables,
    given: &mut [i32],
    marks: &mut [i32],
) -> bool
    requires whole { WholeIn (length given.old / 2) tables.old }
    requires by_index { (i : ℕ) → i < used_of order → Ready book.now (item_at order i) }
    requires pass_asks { (g : Game) × PassAsks (length given.old / 2) book.now (entries_of order)
        (state_in g tables.old given.old eoi) }
    ensures continued_after { (g : Game) →
        passing (state_in g tables.new given.new eoi) (marks_of marks.new tables.new.tally.marks) result
        ≡ passed_by (rounds.pass book.now (entries_of order) (state_in g tables.old given.old eoi))
        (marks_of marks.old tables.old.tally.marks) true }
    ensures whole_2 { WholeIn (length given.old / 2) tables.new }
    ensures given_len_unchanged { length given.new ≡ length given.old }
{
    let mut done = true;
    for routine in &order.items[..used(order)] {
        let taken = turn(book, usize::from(*routine), eoi, tables, given, marks);
        done &= is_done(taken);
    }
    done
}

// The passes of a round, and how many they are: rules 37 and 38.
pub fn all_passes(
    book: &[u8],
    order: Line,
    tables: &mut Tables,
    given: &mut [i32],
    marks: &mut [i32],
) -> usize
    requires whole { WholeIn (length given.old / 2) tables.old }
    requires by_index { (i : ℕ) → i < used_of order → Ready book.now (item_at order i) }
    requires passes_ask { (g : Game) × PassesAsk (length given.old / 2) book.now rounds.most_passes (entries_of order)
        (state_in g tables.old given.old false) }
    ensures passes_after { (eoi : Bool) × ((g : Game) →
        passes (state_in g tables.new given.new eoi) (marks_of marks.new tables.new.tally.marks) result
        ≡ passes_by (rounds.instant book.now rounds.most_passes (entries_of order) (state_in g tables.old given.old false))
        (marks_of marks.old tables.old.tally.marks) 0) }
    ensures whole_2 { WholeIn (length given.old / 2) tables.new }
{
    let mut eoi = false;
    for passes in 0..MOST_PASSES {
        if pass(book, order, eoi, tables, given, marks) {
            return passes + 1;
        }
        eoi = !tables.tally.moved;
        tables.tally.moved = false;
    }
    MOST_PASSES
}
