// What a step changes.
ghost use Rattle.std.specs.Prelude.{◌≡◌, Bool, ◌/◌, ◌<◌, ◌≤◌, length};
ghost use Rattle.layout.specs.Layout.{most_routines};
ghost use Rattle.lines.specs.Lines.{most_entries};
ghost use Rattle.game.specs.declared.Game.{Game};
ghost use Rattle.round.specs.Ticks.{effect_on};
ghost use Rattle.tables.specs.Tables.{state_in, WholeIn};
ghost use Rattle.passing.specs.Effects.{is_starting, started_in, start_count, FitsTables, HasRoom, marks_of, marked_by};

use game::NOT_STARTED;
use lines::MOST_ENTRIES;
use round::Effect;
use tables::{Field, Flag, Tables, put_pair};

// Whether a routine is one of those to start.
fn is_to_start(tables: &Tables, routine: usize) -> bool
    requires { tables.now.tally.starting ≤ most_entries }
    ensures { result ≡ is_starting tables.now.fields tables.now.tally.starting routine }
{
    (0..tables.tally.starting).any(|at| tables.starting(at) == routine)
}

// A start of a routine: one that is not in stage 0, or is already to start, adds nothing.
#[tactic(auto, unfolding(crate::specs::Effects::started_in, crate::specs::Effects::start_count))]
fn start(tables: &mut Tables, routine: usize)
    requires { (tables.old.tally.starting ≤ most_entries) × (routine < most_routines) }
    ensures { let t = tables.old in
        let count = t.tally.starting in
        tables.new ≡ record t {
          fields = started_in count routine t.fields;
          tally = record t.tally { starting = start_count count routine t.fields };
        } }
{
    let started = tables.field(Field::Stage, routine) != usize::from(NOT_STARTED);
    if started || is_to_start(tables, routine) {
        return;
    }
    let count = tables.tally.starting;
    if count < MOST_ENTRIES {
        tables.put_starting(count, routine);
        tables.tally.starting = count + 1;
    }
}

// What an effect of a step of a routine does to the tables, to the numbers given and to the marks.
#[tactic(auto, using(crate::proofs::Held::held), unfolding(round::specs::Ticks::effect_on, crate::specs::Effects::marks_put))]
pub fn apply(
    effect: Effect,
    routine: usize,
    tables: &mut Tables,
    given: &mut [i32],
    marks: &mut [i32],
)
    requires whole { WholeIn (length given.old / 2) tables.old }
    requires fits_tables { (FitsTables effect) × (HasRoom (length given.old / 2) tables.old.tally effect) × (routine < most_routines) }
    ensures eoi_after { (g : Game) (eoi : Bool) →
        state_in g tables.new given.new eoi ≡ effect_on effect (state_in g tables.old given.old eoi) }
    ensures whole_2 { WholeIn (length given.old / 2) tables.new }
    ensures marks_after { marks_of marks.new tables.new.tally.marks
        ≡ marked_by routine effect (marks_of marks.old tables.old.tally.marks) }
{
    match effect {
        Effect::Nothing => {}
        Effect::Mark(n) => {
            tables.tally.marks = put_pair(marks, tables.tally.marks, routine, n);
        }
        Effect::Put(c, v) => tables.put_counter(c, v),
        Effect::Add(c, v) => {
            tables.put_counter(c, v.sum);
            // Rust has no From<u32> for usize.
            tables.tally.lost += v.lost as usize;
        }
        Effect::Give(e) => {
            tables.put_present(e, true);
            tables.tally.moved = true;
        }
        Effect::GiveNumber(e, v) => {
            tables.put_present(e, true);
            tables.tally.moved = true;
            tables.tally.given = put_pair(given, tables.tally.given, e, v);
        }
        Effect::Start(r) => start(tables, r),
        Effect::Stop(r) => tables.put_flag(Flag::Stops, r, true),
        Effect::Suspend(r) => tables.put_flag(Flag::Suspends, r, true),
        Effect::Resume(r) => tables.put_flag(Flag::Resumes, r, true),
    }
}
