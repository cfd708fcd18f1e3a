#![tactic(auto)]
// How a round begins and ends on its tables: the routines of a game are taken apart, one by one, and the eight actions of section 5.4 are
// done; behind the passes the game is put together again. Actions 7 and 8 are done by what the tables begin with: all is 0.
//
// These functions serve the code that plays: `finish` asks for tables whose numbers a game can hold.
mod actions;

ghost use Rattle.std.specs.Prelude.{◌≡◌, ℕ, ◌<◌, ◌≤◌, length, get_or};
ghost use Rattle.numbers.specs.Numbers.{byte_limit, half_limit};
ghost use Rattle.lines.specs.Lines.{most_entries};
ghost use Rattle.round.specs.Actions.{without_orders};
ghost use Rattle.tables.specs.Tables.{field_count, stages_row, places_row, starting_row, row_at, last_row, routine_in, start_line};
ghost use Rattle.opening.specs.Actions.{taken_flags, taken_fields, with_signals, opened_fields, opened_order};
ghost use Rattle.opening.specs.Games.{game_of, HoldsGame};

use actions::{broadcast, join, settle};
use game::{Game, Routine};
use kinds::Counts;
use layout::{MOST_ROUTINES, MOST_SIGNALS};
use lines::{Line, MOST_ENTRIES};
use tables::{Field, Flag, Tables};

// 4. and 5. Whether a routine is suspended once it is resumed, then suspended.
fn is_suspended(routine: Routine) -> bool
    ensures { result ≡ (without_orders routine).suspended }
{
    routine.suspending || (routine.suspended && !routine.resuming)
}

// A routine is taken apart. 3. Its end signal is present if it is to stop. 4. and 5. It is resumed, then suspended.
// 8. It is in no set any more. The count left is widened by `as`: usize has no From<u32>.
pub fn take(routine: Routine, at: usize, tables: &mut Tables)
    ensures { tables.new
        ≡ record tables.old { flags = taken_flags routine at tables.old.flags; fields = taken_fields routine at tables.old.fields } }
{
    tables.put_flag(Flag::Ends, at, routine.stopping);
    tables.put_flag(Flag::Suspended, at, is_suspended(routine));
    tables.put_flag(Flag::Begun, at, routine.begun);
    tables.put_field(Field::Stage, at, usize::from(routine.stage));
    tables.put_field(Field::Place, at, usize::from(routine.place));
    tables.put_field(Field::Left, at, routine.left as usize);
}

// The playing order of a round, with what actions 1, 2, 3 and 6 do to its tables.
pub fn open(
    listed: Line,
    starting: Line,
    signals: [bool; MOST_SIGNALS],
    tables: &mut Tables,
) -> Line
    ensures value { result ≡ opened_order listed starting tables.new.flags tables.old.fields }
    ensures after { tables.new
        ≡ record tables.old {
          flags = with_signals signals tables.old.flags;
          fields = opened_fields listed starting tables.new.flags tables.old.fields;
        } }
{
    let joined = join(listed, starting, tables);
    broadcast(signals, tables);
    settle(joined, tables)
}

// A routine as the tables have it. Its numbers are narrowed by `as`: the clause says that they fit, and TryFrom would give an Err as well.
fn routine_at(tables: &Tables, at: usize) -> Routine
    requires { (get_or (row_at stages_row tables.now.fields) at 0 < byte_limit)
        × (get_or (row_at places_row tables.now.fields) at 0 < half_limit) }
    ensures { result ≡ routine_in tables.now.flags tables.now.fields at }
{
    Routine {
        stage: tables.field(Field::Stage, at) as u8,
        place: tables.field(Field::Place, at) as u16,
        left: tables.field(Field::Left, at) as u32,
        suspended: tables.flag(Flag::Suspended, at),
        begun: tables.flag(Flag::Begun, at),
        stopping: tables.flag(Flag::Stops, at),
        suspending: tables.flag(Flag::Suspends, at),
        resuming: tables.flag(Flag::Resumes, at),
    }
}

// Those to start as the tables have them, narrowed in the same way. By index: with `array::from_fn` it is proved, but no library can be built
// of that proof.
fn starting_line(tables: &Tables) -> Line
    requires short { (tables.now.tally.starting ≤ most_entries) × (length tables.now.fields ≡ field_count) }
    requires entries { (i : ℕ) → i < tables.now.tally.starting → get_or (last_row starting_row tables.now.fields) i 0 < byte_limit }
    requires beyond { (i : ℕ) → tables.now.tally.starting ≤ i → i < most_entries →
        get_or (last_row starting_row tables.now.fields) i 0 ≡ 0 }
    ensures { result ≡ start_line tables.now.fields tables.now.tally.starting }
{
    let len = tables.tally.starting;
    let mut items = [0u8; MOST_ENTRIES];
    for at in 0..len {
        items[at] = tables.starting(at) as u8;
    }
    Line { items, len }
}

// The game that the tables hold at the end of a round, with these numbers R, E and C and this playing order. The lent routines beyond R
// stay.
pub fn finish(counts: Counts, lent: [Routine; MOST_ROUTINES], order: Line, tables: &Tables) -> Game
    requires { HoldsGame counts.routines lent tables.now }
    ensures { result ≡ game_of counts order tables.now }
{
    let mut routines = lent;
    for (at, routine) in routines[..counts.routines].iter_mut().enumerate() {
        *routine = routine_at(tables, at);
    }
    Game {
        counts,
        routines,
        counters: tables.counters,
        listed: order,
        starting: starting_line(tables),
        broadcast: [false; MOST_SIGNALS],
    }
}
