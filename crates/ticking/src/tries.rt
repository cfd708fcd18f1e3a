// The steps that may halt the turn: counted rests, and those that ask for a signal, a routine's end or a number.
ghost use Rattle.std.specs.Prelude.{◌≡◌, ◌||◌, false, ◌+◌, ◌-◌, ◌/◌, ◌<◌, ◌≤◌, ◌^◌, leb, eqb, pos, length, get_or, take, if◌then◌else◌};
ghost use Rattle.layout.specs.Layout.{most_signals};
ghost use Rattle.tables.specs.Tables.{stages_row, ends_row, row_at, first_of_pair, pairs_of};
ghost use Rattle.round.specs.State.{counts_as_ended, numbers_with};
ghost use Rattle.round.specs.Ticks as ticks;

use crate::fresh;
use game::ENDED;
use round::{Act, Effect, Ending, Position};
use tables::{Field, Flag, Tables};

// A step that has begun its count, with so many left.
fn begun_at(place: usize, left: usize) -> Position
    ensures { result ≡ ticks.begun_at place left }
{
    Position {
        place,
        begun: true,
        left,
    }
}

// A rest with the count k. That the place has one behind it stays a clause, here and below: `tick` has just tested it.
pub fn rests_for(place: usize, k: usize) -> Act
    requires { place + 1 < 2 ^ 64 }
    ensures { result ≡ (
        if eqb k 0 then Act.Goes (place + 1) Effect.Nothing
        else Act.Halts Ending.Rested (ticks.begun_at place (k - 1))) }
{
    if k == 0 {
        Act::Goes(place + 1, Effect::Nothing)
    } else {
        Act::Halts(Ending::Rested, begun_at(place, k - 1))
    }
}

// Where its thing is missing, a routine is to be continued, and rests at position y once the round is being closed.
fn when_missing(x: Position, eoi: bool, y: Position) -> Act
    ensures { result ≡ (if eoi then Act.Halts Ending.Missed y else Act.Halts Ending.Continued x) }
{
    if eoi {
        Act::Halts(Ending::Missed, y)
    } else {
        Act::Halts(Ending::Continued, x)
    }
}

// A try whose thing is there or not: the turn goes on behind it, or the routine rests at position y once the round is being closed.
pub fn tries(x: Position, eoi: bool, there: bool, y: Position) -> Act
    requires { x.place + 1 < 2 ^ 64 }
    ensures { result ≡ (
        if there then Act.Goes (x.place + 1) Effect.Nothing
        else if eoi then Act.Halts Ending.Missed y
        else Act.Halts Ending.Continued x) }
{
    if there {
        Act::Goes(x.place + 1, Effect::Nothing)
    } else {
        when_missing(x, eoi, y)
    }
}

// A wait or a join with the count k.
pub fn waits_for(x: Position, eoi: bool, there: bool, k: usize) -> Act
    requires { x.place + 1 < 2 ^ 64 }
    ensures { result ≡ (
        if eqb k 0 || there then Act.Goes (x.place + 1) Effect.Nothing
        else if eoi then Act.Halts Ending.Missed (ticks.begun_at x.place (k - 1))
        else Act.Halts Ending.Continued x) }
{
    if k == 0 {
        Act::Goes(x.place + 1, Effect::Nothing)
    } else {
        tries(x, eoi, there, begun_at(x.place, k - 1))
    }
}

// Whether a routine in this stage counts as ended for a join.
fn counts_as_ended(stage: usize) -> bool
    ensures { result ≡ counts_as_ended stage }
{
    usize::from(ENDED) <= stage
}

// Whether a routine counts as ended, or its end signal is present.
pub fn end_there(tables: &Tables, routine: usize) -> bool
    ensures { result ≡ (
        counts_as_ended (get_or (row_at stages_row tables.now.fields) routine 0)
        || get_or (row_at ends_row tables.now.flags) routine false) }
{
    counts_as_ended(tables.field(Field::Stage, routine)) || tables.flag(Flag::Ends, routine)
}

// Whether a pair has a number of signal e. `as` is proved to lose nothing; try_from would have a refusal that no call meets.
fn is_of(pair: &[i32; 2], e: usize) -> bool
    requires { e < most_signals }
    ensures { result ≡ eqb (first_of_pair (get_or pair.now 0 (pos 0))) e }
{
    pair[0] == e as i32
}

// The k-th number of signal e among the first pairs, so many; none where it is not given. The numbers are plain and their count stands
// beside them, since their slice is as long as the book needs (tables::Tables).
fn find(given: &[i32], count: usize, e: usize, k: usize) -> Option<i32>
    requires { (count ≤ length given.now / 2) × (e < most_signals) × (0 < k) }
    ensures { let ns = numbers_with e (take count (pairs_of given.now)) in
        result ≡ (if leb k (length ns) then Some (get_or ns (k - 1) (pos 0)) else None) }
{
    let (pairs, _) = given.as_chunks::<2>();
    pairs[..count]
        .iter()
        .filter(|pair| is_of(pair, e))
        .map(|pair| pair[1])
        .nth(k - 1)
}

// A reading of the k-th number of signal e into counter c.
pub fn reads(
    x: Position,
    eoi: bool,
    e: usize,
    c: usize,
    k: usize,
    given: &[i32],
    count: usize,
) -> Act
    requires { (x.place + 1 < 2 ^ 64) × (e < most_signals) × (0 < k) × (count ≤ length given.now / 2) }
    ensures { let ns = numbers_with e (take count (pairs_of given.now)) in
        result ≡ (
        if leb k (length ns) then Act.Goes (x.place + 1) (Effect.Put c (get_or ns (k - 1) (pos 0)))
        else if eoi then Act.Halts Ending.Missed (ticks.fresh (x.place + 1))
        else Act.Halts Ending.Continued x) }
{
    match find(given, count, e, k) {
        Some(number) => Act::Goes(x.place + 1, Effect::Put(c, number)),
        None => when_missing(x, eoi, fresh(x.place + 1)),
    }
}
