#![tactic(auto)]
// A step's eight bytes, taken apart into one of the 21 kinds, or turned down.
ghost use Rattle.std.specs.Prelude.{◌≡◌, ◌<◌};
ghost use Rattle.kinds.specs.Steps.{kind_of, steps_in, fields_at, kind_at};
ghost use Rattle.kinds.specs.Limits.{field_limits, number_limits, limits_of, decoded_within, step_within};

use numbers::{HIGHEST, LOWEST};

// The 21 kinds. Indexes, relations and counts are ready to use: a count of 0 or less is 0. A relation is the number that the step has, for
// which `numbers::relation` answers without a branch.
#[derive(Clone, Copy)]
pub enum Kind {
    Mark(i32),
    Set(usize, i32),
    Add(usize, i32),
    Take(usize, usize),
    Signal(usize),
    SignalNumber(usize, usize),
    Rest,
    RestFor(usize),
    Wait(usize),
    WaitFor(usize, usize),
    Join(usize),
    JoinFor(usize, usize),
    Read(usize, usize, usize),
    Start(usize),
    Stop(usize),
    Suspend(usize),
    Resume(usize),
    If(usize, usize, i32),
    Else,
    While(usize, usize, i32),
    End,
}

// The bytes of a step.
pub const STEP_BYTES: usize = 8;

// A step's fields: op, a, b and n.
#[derive(Clone, Copy)]
pub struct Fields {
    pub op: u8,
    pub a: u8,
    pub b: u16,
    pub n: i32,
}

// The numbers R, E and C of a book.
#[repr(C)]
#[derive(Clone, Copy, PartialEq, Eq, Default)]
pub struct Counts {
    pub routines: usize,
    pub signals: usize,
    pub counters: usize,
}

// The highest k of a reading.
const MOST_READ: i32 = 64;

// Equal, less and greater.
const RELATIONS: i32 = 3;

// How many ops there are.
const OPS: usize = 21;

// Two limits for each op. The limits are two arrays of pairs and no rows of four: `limits_of` promises them so, and pairs are read faster
// (docs/DECISIONS.md).
type Pairs = [[i32; 2]; OPS];

// What the fields of a step may be in some book: of each op, first how many values a and b have, then the lowest and the highest n.
pub type Limits = [Pairs; 2];

// How many values a and b have, by op, with so many routines, signals and counters. An unnamed field has one value, 0.
#[tactic(auto, unfolding(crate::specs::Limits::field_limits))]
fn field_limits(routines: u16, signals: u16, counters: u16) -> Pairs
    ensures { result ≡ field_limits (record { routines = routines; signals = signals; counters = counters }) }
{
    let r = i32::from(routines);
    let e = i32::from(signals);
    let c = i32::from(counters);
    let k = RELATIONS;
    [
        [1, 1],
        [c, 1],
        [c, 1],
        [c, c],
        [e, 1],
        [e, c],
        [1, 1],
        [1, 1],
        [e, 1],
        [e, 1],
        [r, 1],
        [r, 1],
        [e, c],
        [r, 1],
        [r, 1],
        [r, 1],
        [r, 1],
        [c, k],
        [1, 1],
        [c, k],
        [1, 1],
    ]
}

// The lowest and the highest n, by op. An unnamed n is 0.
#[tactic(auto, unfolding(crate::specs::Limits::number_limits))]
fn number_limits() -> Pairs
    ensures { result ≡ number_limits }
{
    let l = LOWEST;
    let h = HIGHEST;
    let m = MOST_READ;
    [
        [l, h],
        [l, h],
        [l, h],
        [0, 0],
        [0, 0],
        [0, 0],
        [0, 0],
        [l, h],
        [0, 0],
        [l, h],
        [0, 0],
        [l, h],
        [1, m],
        [0, 0],
        [0, 0],
        [0, 0],
        [0, 0],
        [l, h],
        [0, 0],
        [l, h],
        [0, 0],
    ]
}

// The limits of a book with so many routines, signals and counters: three numbers of 16 bits and no `Counts`,
// whose numbers may be more than an i32 holds.
pub fn limits_of(routines: u16, signals: u16, counters: u16) -> Limits
    ensures { result ≡ limits_of (record { routines = routines; signals = signals; counters = counters }) }
{
    [field_limits(routines, signals, counters), number_limits()]
}

// The kind of a step whose fields are op, a, b and n, whatever they are. Four parameters and no `Fields`: there a and b have their
// bits' types, and the table's rows speak of them as indexes.
#[tactic(auto, unfolding(crate::specs::Steps::row_of))]
pub fn kind_of(op: u8, a: usize, b: usize, n: i32) -> Kind
    ensures { result ≡ kind_of op a b n }
{
    let k = numbers::count(n);
    match op {
        0 => Kind::Mark(n),
        1 => Kind::Set(a, n),
        2 => Kind::Add(a, n),
        3 => Kind::Take(a, b),
        4 => Kind::Signal(a),
        5 => Kind::SignalNumber(a, b),
        6 => Kind::Rest,
        7 => Kind::RestFor(k),
        8 => Kind::Wait(a),
        9 => Kind::WaitFor(a, k),
        10 => Kind::Join(a),
        11 => Kind::JoinFor(a, k),
        12 => Kind::Read(a, b, k),
        13 => Kind::Start(a),
        14 => Kind::Stop(a),
        15 => Kind::Suspend(a),
        16 => Kind::Resume(a),
        17 => Kind::If(a, b, n),
        18 => Kind::Else,
        19 => Kind::While(a, b, n),
        _ => Kind::End,
    }
}

// The step whose fields are op, a, b and n: that kind; none where a field is not within the limits of its op. Its four
// parameters stay: it is public, and no crate calls it, so that what it takes may not change.
#[tactic(auto, unfolding(crate::specs::Limits::decoded_within))]
pub fn decode(limits: &Limits, op: u8, a: u8, b: u16, n: i32) -> Option<Kind>
    ensures { result ≡ decoded_within limits.now op a b n }
{
    let [fields, numbers] = limits;
    let [a_count, b_count] = *fields.get(usize::from(op))?;
    let [lowest, highest] = numbers[usize::from(op)];
    if i32::from(a) < a_count && i32::from(b) < b_count && numbers::is_within(n, lowest, highest) {
        Some(kind_of(op, usize::from(a), usize::from(b), n))
    } else {
        None
    }
}

// The fields of the step at a place whose eight bytes are there.
fn fields_at(steps: &[u8], at: usize) -> Fields
    requires { at < steps_in steps.now }
    ensures { result ≡ fields_at steps.now at }
{
    let i = at * STEP_BYTES;
    let op = steps[i];
    let a = steps[i + 1];
    let b = u16::from_le_bytes([steps[i + 2], steps[i + 3]]);
    let n = i32::from_le_bytes([steps[i + 4], steps[i + 5], steps[i + 6], steps[i + 7]]);
    Fields { op, a, b, n }
}

// The kind of the step at a place whose eight bytes are there, without the test of its fields. It serves the code that plays, whose steps
// are those of an accepted book.
#[tactic(auto, unfolding(crate::specs::Steps::kind_at))]
pub fn kind_at(steps: &[u8], at: usize) -> Kind
    requires { at < steps_in steps.now }
    ensures { result ≡ kind_at steps.now at }
{
    let fields = fields_at(steps, at);
    kind_of(
        fields.op,
        usize::from(fields.a),
        usize::from(fields.b),
        fields.n,
    )
}

// The step at a place of a part of the book whose limits are these; none where its eight bytes are not there or it is turned down.
#[tactic(auto, unfolding(crate::specs::Limits::step_within))]
pub fn step_within(steps: &[u8], limits: &Limits, at: usize) -> Option<Kind>
    ensures { result ≡ step_within limits.now steps.now at }
{
    if steps.len() / STEP_BYTES <= at {
        return None;
    }
    let fields = fields_at(steps, at);
    decode(limits, fields.op, fields.a, fields.b, fields.n)
}
