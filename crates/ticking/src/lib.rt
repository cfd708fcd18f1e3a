#![tactic(auto)]
// What a step comes to: where the turn goes on and with what effect, or how it ends. A tick only reads the tables of a round.
//
// These functions serve the code that plays: they ask for steps whose counters, signals and routines the tables have a place for, as those
// of an accepted book have. No type has these bounds: kind_at makes a kind of any eight bytes, and each number would be tested anew.
mod jumps;
mod tries;

ghost use Rattle.std.specs.Prelude.{◌≡◌, ◌/◌, ◌<◌, ◌≤◌, length};
ghost use Rattle.kinds.specs.Steps.{steps_in};
ghost use Rattle.tables.specs.declared.Tally.{Tally};
ghost use Rattle.tables.specs.Tables.{state_of};
ghost use Rattle.game.specs.declared.Game.{Game};
ghost use Rattle.round.specs.Ticks as ticks;
ghost use Rattle.ticking.specs.Acts.{Within, AllWithin, act_at};

use jumps::{from_end, past_partner, tests};
use kinds::{Kind, STEP_BYTES, kind_at};
use numbers::sum_of;
use round::{Act, Effect, Ending, Position};
use tables::Tables;
use tries::{end_there, reads, rests_for, tries, waits_for};

// A place with nothing begun.
pub fn fresh(place: usize) -> Position
    ensures { result ≡ ticks.fresh place }
{
    Position {
        place,
        begun: false,
        left: 0,
    }
}

// The count of a timed step: what is left of it, or n.
fn count_at(x: Position, n: usize) -> usize
    ensures { result ≡ ticks.count_at x n }
{
    if x.begun { x.left } else { n }
}

// The step of this kind, of a routine at position x. A position and whether the round is being closed stay two, here and in `tries`: the
// one is the routine's own, the other every routine's of the pass.
#[tactic(auto, unfolding(round::specs::Ticks::tick_of, tables::specs::Tables::state_of))]
fn act_of(kind: Kind, steps: &[u8], x: Position, eoi: bool, tables: &Tables, given: &[i32]) -> Act
    requires { (x.place < steps_in steps.now) × (Within kind) × (tables.now.tally.given ≤ length given.now / 2) }
    ensures { (g : Game) (t : Tally) → t.given ≡ tables.now.tally.given →
        result ≡ (ticks.tick_of 0 steps.now x
        (state_of g tables.now.counters tables.now.flags tables.now.fields given.now t eoi) kind).act }
{
    let next = x.place + 1;
    match kind {
        Kind::Mark(n) => Act::Goes(next, Effect::Mark(n)),
        Kind::Set(c, n) => Act::Goes(next, Effect::Put(c, n)),
        Kind::Add(c, n) => Act::Goes(next, Effect::Add(c, sum_of(tables.counter(c), n))),
        Kind::Take(c, d) => Act::Goes(
            next,
            Effect::Add(c, sum_of(tables.counter(c), tables.counter(d))),
        ),
        Kind::Signal(e) => Act::Goes(next, Effect::Give(e)),
        Kind::SignalNumber(e, c) => Act::Goes(next, Effect::GiveNumber(e, tables.counter(c))),
        Kind::Rest => Act::Halts(Ending::Rested, fresh(next)),
        Kind::RestFor(n) => rests_for(x.place, count_at(x, n)),
        Kind::Wait(e) => tries(x, eoi, tables.is_present(e), fresh(x.place)),
        Kind::WaitFor(e, n) => waits_for(x, eoi, tables.is_present(e), count_at(x, n)),
        Kind::Join(t) => tries(x, eoi, end_there(tables, t), fresh(x.place)),
        Kind::JoinFor(t, n) => waits_for(x, eoi, end_there(tables, t), count_at(x, n)),
        Kind::Read(e, c, k) => reads(x, eoi, e, c, k, given, tables.tally.given),
        Kind::Start(t) => Act::Goes(next, Effect::Start(t)),
        Kind::Stop(t) => Act::Goes(next, Effect::Stop(t)),
        Kind::Suspend(t) => Act::Goes(next, Effect::Suspend(t)),
        Kind::Resume(t) => Act::Goes(next, Effect::Resume(t)),
        // If and While in one arm were tried: no proof is made where an or-pattern binds a signed number.
        Kind::If(c, by, n) => tests(steps, x.place, by, tables.counter(c), n),
        Kind::Else => Act::Goes(past_partner(steps, x.place), Effect::Nothing),
        Kind::While(c, by, n) => tests(steps, x.place, by, tables.counter(c), n),
        Kind::End => Act::Goes(from_end(steps, x.place), Effect::Nothing),
    }
}

// The step at position x, or the routine's end behind its last step.
#[tactic(auto, unfolding(crate::specs::Acts::act_at))]
pub fn tick(steps: &[u8], x: Position, eoi: bool, tables: &Tables, given: &[i32]) -> Act
    requires { (AllWithin steps.now) × (tables.now.tally.given ≤ length given.now / 2) }
    ensures { (g : Game) (t : Tally) → t.given ≡ tables.now.tally.given →
        result ≡ act_at steps.now x
        (state_of g tables.now.counters tables.now.flags tables.now.fields given.now t eoi) }
{
    let all = steps.len() / STEP_BYTES;
    if all <= x.place {
        return Act::Halts(Ending::Ended, fresh(all));
    }
    let kind = kind_at(steps, x.place);
    act_of(kind, steps, x, eoi, tables, given)
}
