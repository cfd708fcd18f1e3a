// Whether the slots of a game's routines fit a book.
ghost use Rattle.std.specs.Prelude.{◌≡◌, ◌||◌, ltb, if◌then◌else◌};
ghost use Rattle.forms.specs.Timed.{timed_count};
ghost use Rattle.kinds.specs.Limits.{limits_of};
ghost use Rattle.layout.specs.Layout.{counts_of};
ghost use Rattle.directory.specs.Directory.{routine_step};
ghost use Rattle.fitting.specs.Routines.{is_blank, stage_fits, start_fits, left_fits, routine_fits};

use directory::{routine_steps, step_count};
use forms::timed_count;
use game::{CONTINUING, ENDED, NOT_STARTED, RESTED, Routine, STOPPED, blank_routine};
use kinds::{Limits, step_within};

// A book, with the limits of its steps' fields.
#[derive(Clone, Copy)]
pub struct Limited<'a> {
    pub book: &'a [u8],
    pub limits: &'a Limits,
    ghost limits_value: { limits.now ≡ limits_of (counts_of book.now) },
}

// A routine of a game, with its number, and whether it is in the playing order and in the list of those to start.
#[derive(Clone, Copy)]
pub struct Slot {
    pub routine: usize,
    pub x: Routine,
    pub listed: bool,
    pub starting: bool,
}

// Whether the fields of a routine are all 0.
fn is_blank(x: Routine) -> bool
    ensures { result ≡ is_blank x }
{
    x == blank_routine()
}

// Whether a stage goes with being listed, or not.
fn stage_fits(stage: u8, listed: bool) -> bool
    ensures { result ≡ stage_fits stage listed }
{
    match stage {
        NOT_STARTED => !listed,
        CONTINUING => listed,
        RESTED => listed,
        ENDED => true,
        STOPPED => !listed,
        _ => false,
    }
}

// Whether a stage goes with being to start, or not.
fn start_fits(stage: u8, starting: bool) -> bool
    ensures { result ≡ start_fits stage starting }
{
    !starting || stage == NOT_STARTED
}

impl Limited<'_> {
    // Whether begun and the count left of a routine go with the step at its place.
    #[tactic(auto, using(kinds::proofs::Limits::step_within_lem))]
    fn left_fits(self, slot: Slot) -> bool
        ensures { result ≡ left_fits slot.x.begun slot.x.left (timed_count (routine_step self.entry.book.now slot.routine slot.x.place)) }
    {
        let x = slot.x;
        if x.begun {
            let steps = routine_steps(self.book, slot.routine);
            let step = step_within(steps, self.limits, usize::from(x.place));
            // usize has no From<u32>.
            (x.left as usize) < timed_count(step)
        } else {
            x.left == 0
        }
    }

    // Whether a routine of the book fits.
    #[tactic(auto, unfolding(crate::specs::Routines::routine_fits))]
    fn routine_fits(self, slot: Slot) -> bool
        ensures { result ≡ routine_fits self.entry.book.now slot.routine slot.x slot.listed slot.starting }
    {
        usize::from(slot.x.place) <= step_count(self.book, slot.routine)
            && stage_fits(slot.x.stage, slot.listed)
            && start_fits(slot.x.stage, slot.starting)
            && self.left_fits(slot)
    }

    // Whether a slot fits: one of so many routines of the book, or beyond them, where nothing is kept.
    pub fn slot_fits(self, slot: Slot, routines: usize) -> bool
        ensures { result ≡ (if ltb slot.routine routines
            then routine_fits self.entry.book.now slot.routine slot.x slot.listed slot.starting
            else is_blank slot.x) }
    {
        if slot.routine < routines {
            self.routine_fits(slot)
        } else {
            is_blank(slot.x)
        }
    }
}
