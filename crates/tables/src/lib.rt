#![tactic(auto)]
// The tables of a round: its state taken apart into arrays of numbers and flags, a row for each kind of thing.
//
// Flags: a row of MOST_ROUTINES for each kind of flag, and last a row of MOST_SIGNALS for the signals that are present. Fields: a row of
// MOST_ROUTINES for each kind of field, and last a row of MOST_ENTRIES for those to start. Pairs, two numbers to each: the numbers given,
// each behind its signal, and the marks, each a routine and its number.
//
// These methods serve the code that plays and ask for numbers that a table has a place for. The tables are lent to all that plays, and
// never copied. Numbers go in and out by `as`: each is proved to lose nothing, and try_from would have a refusal that no call meets.
ghost use Rattle.std.specs.Prelude.{◌≡◌, false, ◌+◌, ◌<◌, ◌≤◌, ◌^◌, length, get_or, set, pos};
ghost use Rattle.numbers.specs.Numbers.{word_limit};
ghost use Rattle.layout.specs.Layout.{most_routines, most_signals, most_counters};
ghost use Rattle.lines.specs.Lines.{most_entries};
ghost use Rattle.tables.specs.Tables.{flag_row, field_row, begun_row, present_row, lefts_row, starting_row};
ghost use Rattle.tables.specs.Tables.{row_at, last_row, put_in, pair_put, pair_count};

use layout::{MOST_COUNTERS, MOST_ROUTINES, MOST_SIGNALS};
use lines::MOST_ENTRIES;

// A row of flags: the end signals, those to stop, to suspend and to resume, those suspended, and those that have begun a count.
#[derive(Clone, Copy)]
pub enum Flag {
    Ends,
    Stops,
    Suspends,
    Resumes,
    Suspended,
    Begun,
}

// A row of fields: the stages, the places and the counts left.
#[derive(Clone, Copy)]
pub enum Field {
    Stage,
    Place,
    Left,
}

// Where the signals that are present begin, behind the rows of flags.
const PRESENT: usize = 6 * MOST_ROUTINES;

pub const FLAGS: usize = PRESENT + MOST_SIGNALS;

// Where those to start begin, behind the rows of fields.
const STARTING: usize = 3 * MOST_ROUTINES;

pub const FIELDS: usize = STARTING + MOST_ENTRIES;

// What the steps of a round have counted: those to start, the numbers given, the marks and what additions have cut off; and whether the
// pass has had a move.
#[derive(Clone, Copy, Default)]
pub struct Tally {
    pub starting: usize,
    pub given: usize,
    pub marks: usize,
    pub lost: usize,
    pub moved: bool,
}

// The tables of a round, and what is counted.
// The numbers given and the marks are no fields: their slices are as long as the book needs, and C lends the marks (`zulqenat_round`).
#[derive(Drop)]
pub struct Tables {
    pub flags: [bool; FLAGS],
    pub fields: [u32; FIELDS],
    pub counters: [i32; MOST_COUNTERS],
    pub tally: Tally,
}

impl Flag {
    // Where the row begins.
    fn row(self) -> usize
        ensures { (result ≡ flag_row self) × (result ≤ begun_row) }
    {
        self as usize * MOST_ROUTINES
    }
}

// A trait over the two would have the same two lines; what is more than a line, read_in and put_in, they share.
impl Field {
    fn row(self) -> usize
        ensures { (result ≡ field_row self) × (result ≤ lefts_row) }
    {
        self as usize * MOST_ROUTINES
    }
}

// What a row has for a routine; none where there is no such routine.
#[tactic(auto, using(crate::proofs::Rows::row_read, crate::proofs::Rows::row_beyond, std::proofs::lemmas::List::get_or_default))]
pub fn read_in<T: Copy>(table: &[T], row: usize, routine: usize, none: T) -> T
    requires { row + most_routines ≤ length table.now }
    ensures { result ≡ get_or (row_at row table.now) routine none }
{
    if routine < MOST_ROUTINES {
        table[row + routine]
    } else {
        none
    }
}

#[tactic(auto, unfolding(crate::specs::Tables::put_in))]
pub fn put_in<T: Copy>(table: &mut [T], row: usize, routine: usize, value: T)
    requires { row + most_routines ≤ length table.old }
    ensures { table.new ≡ put_in row routine value table.old }
{
    if routine < MOST_ROUTINES {
        table[row + routine] = value;
    }
}

impl Tables {
    // The flag of a routine; none where there is no such routine.
    pub fn flag(&self, row: Flag, routine: usize) -> bool
        ensures { result ≡ get_or (row_at (flag_row row) self.now.flags) routine false }
    {
        read_in(&self.flags, row.row(), routine, false)
    }

    pub fn put_flag(&mut self, row: Flag, routine: usize, value: bool)
        ensures { self.new ≡ record self.old { flags = put_in (flag_row row) routine value self.old.flags } }
    {
        put_in(&mut self.flags, row.row(), routine, value);
    }

    // Each method for signals, for those to start and for counters is one index into an array: a generic function would have to be given
    // the array and do no more.
    //
    // Whether a signal is present.
    #[tactic(auto, using(crate::proofs::Rows::last_read))]
    pub fn is_present(&self, signal: usize) -> bool
        requires { signal < most_signals }
        ensures { result ≡ get_or (last_row present_row self.now.flags) signal false }
    {
        self.flags[PRESENT + signal]
    }

    pub fn put_present(&mut self, signal: usize, value: bool)
        requires { signal < most_signals }
        ensures { self.new ≡ record self.old { flags = set self.old.flags (present_row + signal) value } }
    {
        self.flags[PRESENT + signal] = value;
    }

    // The stage, the place or the count left of a routine; 0 where there is no such routine.
    pub fn field(&self, row: Field, routine: usize) -> usize
        ensures { (result ≡ get_or (row_at (field_row row) self.now.fields) routine 0) × (result < word_limit) }
    {
        read_in(&self.fields, row.row(), routine, 0) as usize
    }

    pub fn put_field(&mut self, row: Field, routine: usize, value: usize)
        requires { value < word_limit }
        ensures { self.new ≡ record self.old { fields = put_in (field_row row) routine value self.old.fields } }
    {
        put_in(&mut self.fields, row.row(), routine, value as u32);
    }

    // One of those to start.
    #[tactic(auto, using(crate::proofs::Rows::last_read))]
    pub fn starting(&self, at: usize) -> usize
        requires { at < most_entries }
        ensures { (result ≡ get_or (last_row starting_row self.now.fields) at 0) × (result < word_limit) }
    {
        self.fields[STARTING + at] as usize
    }

    pub fn put_starting(&mut self, at: usize, routine: usize)
        requires { (at < most_entries) × (routine < word_limit) }
        ensures { self.new ≡ record self.old { fields = set self.old.fields (starting_row + at) routine } }
    {
        self.fields[STARTING + at] = routine as u32;
    }

    pub fn counter(&self, counter: usize) -> i32
        requires { counter < most_counters }
        ensures { result ≡ get_or self.now.counters counter (pos 0) }
    {
        self.counters[counter]
    }

    pub fn put_counter(&mut self, counter: usize, value: i32)
        requires { counter < most_counters }
        ensures { self.new ≡ record self.old { counters = set self.old.counters counter value } }
    {
        self.counters[counter] = value;
    }
}

// A pair behind those that a buffer holds, and how many it holds then; a full buffer takes no more.
// The buffer is plain numbers with their count beside it, since C lends that of the marks (`zulqenat_round`).
#[tactic(auto, unfolding(crate::specs::Tables::pair_put))]
pub fn put_pair(pairs: &mut [i32], count: usize, first: usize, second: i32) -> usize
    requires { first < 2 ^ 31 }
    ensures value { result ≡ pair_count count pairs.old }
    ensures pairs_after { pairs.new ≡ pair_put count first second pairs.old }
{
    if count < pairs.len() / 2 {
        let at = 2 * count;
        pairs[at] = first as i32;
        pairs[at + 1] = second;
        return count + 1;
    }
    count
}
