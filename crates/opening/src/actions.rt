// Actions 1, 2, 3 and 6, which concern the listed routines, those to start and the signals to broadcast.
ghost use Rattle.std.specs.Prelude.{◌≡◌, ◌<◌};
ghost use Rattle.numbers.specs.Numbers.{word_limit};
ghost use Rattle.lines.specs.Lines.{empty, entries_of, appended};
ghost use Rattle.opening.specs.Actions.{continued, with_signals, settled_stage, stays_in, settled, settled_line};

use game::{CONTINUING, ENDED, RESTED, STOPPED};
use layout::MOST_SIGNALS;
use lines::{Line, MOST_ENTRIES, push_entry, used};
use tables::{FLAGS, Field, Flag, Tables};

// Where the signals that are present begin: they are the last row of flags.
const PRESENT: usize = FLAGS - MOST_SIGNALS;

// 1. Those to start come behind those listed, in stage 1.
pub fn join(listed: Line, starting: Line, tables: &mut Tables) -> Line
    ensures value { result ≡ appended listed (entries_of starting) }
    ensures after { tables.new ≡ record tables.old { fields = continued (entries_of starting) tables.old.fields } }
{
    let mut items = listed.items;
    let mut len = listed.len;
    for &routine in &starting.items[..used(starting)] {
        let r = usize::from(routine);
        tables.put_field(Field::Stage, r, usize::from(CONTINUING));
        len = push_entry(&mut items, len, routine);
    }
    Line { items, len }
}

// 2. The signals to broadcast are present.
pub fn broadcast(signals: [bool; MOST_SIGNALS], tables: &mut Tables)
    ensures { tables.new ≡ record tables.old { flags = with_signals signals tables.old.flags } }
{
    tables.flags[PRESENT..].copy_from_slice(&signals);
}

// 3. and 6. The stage of a listed routine, a number as in the routine that C is handed.
fn settled_stage(stops: bool, stage: usize) -> usize
    requires { stage < word_limit }
    ensures { (result ≡ settled_stage stops stage) × (result < word_limit) }
{
    if stops {
        if stage == usize::from(CONTINUING) || stage == usize::from(RESTED) {
            usize::from(STOPPED)
        } else {
            stage
        }
    } else if stage == usize::from(ENDED) {
        stage
    } else {
        usize::from(CONTINUING)
    }
}

// 3. and 6. Whether a listed routine stays listed.
fn stays(stops: bool, stage: usize) -> bool
    ensures { result ≡ stays_in stops stage }
{
    !stops && stage != usize::from(ENDED)
}

// 3. Those to stop go. 6. So do those that have ended; the others are in stage 1.
pub fn settle(joined: Line, tables: &mut Tables) -> Line
    ensures value { result ≡ settled_line tables.old.flags (entries_of joined) tables.old.fields empty }
    ensures after { tables.new ≡ record tables.old { fields = settled tables.old.flags (entries_of joined) tables.old.fields } }
{
    let mut items = [0u8; MOST_ENTRIES];
    let mut len: usize = 0;
    for &routine in &joined.items[..used(joined)] {
        let r = usize::from(routine);
        let stage = tables.field(Field::Stage, r);
        let stops = tables.flag(Flag::Ends, r);
        tables.put_field(Field::Stage, r, settled_stage(stops, stage));
        if stays(stops, stage) {
            len = push_entry(&mut items, len, routine);
        }
    }
    Line { items, len }
}
