#![tactic(auto)]
// Games: what is kept between rounds. Document 01, "The game".
ghost use Rattle.std.specs.Prelude.{◌≡◌};
ghost use Rattle.game.specs.Game.{blank, blank_game, with_stop, with_suspend, with_resume, with_start};

use kinds::Counts;
use layout::{MOST_COUNTERS, MOST_ROUTINES, MOST_SIGNALS};
use lines::{Line, MOST_ENTRIES, is_in, push};
use verdicts::Verdict;

// The stages of a routine. Numbers and no enum: a game that is lent by value (`zulqenat_fits` of fit_c) may have any number there, and
// what fits a book is said of all of them (`Fits`).
pub const NOT_STARTED: u8 = 0;

pub const CONTINUING: u8 = 1;

pub const RESTED: u8 = 2;

pub const ENDED: u8 = 3;

pub const STOPPED: u8 = 4;

// What is kept of a routine (the paper's thread): "stage (0 not started, 1 continuing, 2 rested, 3 ended, 4 stopped), suspended or not,
// place (0 to its step count), begun or not, and the count left". The last three flags say whether it is in the sets to stop, suspend and
// resume.
#[repr(C)]
#[derive(Clone, Copy, PartialEq, Eq, Default)]
pub struct Routine {
    pub stage: u8,
    // "Places are counted from the routine's own first step." It is the step that the routine goes on with; "An ended routine's place is
    // its step count."
    pub place: u16,
    // The count left of a timed step that is begun, "from 0 to n − 1; otherwise it is 0".
    pub left: u32,
    pub suspended: bool,
    // "Begun is set when op 7, 9 or 11 pauses, and cleared when that step is past."
    pub begun: bool,
    pub stopping: bool,
    pub suspending: bool,
    pub resuming: bool,
}

// A game: the numbers R, E and C, the routines, the counters, the playing order (the paper's actual), those to start (to_start), and the
// signals to broadcast (to_broadcast). In a game that fits its book nothing is kept beyond R, E and C or behind a list's length.
#[repr(C)]
#[derive(Clone, Copy)]
pub struct Game {
    pub counts: Counts,
    pub routines: [Routine; MOST_ROUTINES],
    pub counters: [i32; MOST_COUNTERS],
    pub listed: Line,
    pub starting: Line,
    pub broadcast: [bool; MOST_SIGNALS],
}

// What set-up, an order and reading a stored game answer: the verdict, and the game, which is as lent after a refusal. No Result, since C
// calls return it (`zulqenat_set_up`, `zulqenat_order`, `zulqenat_load`) and promise the lent game with the refusal.
#[repr(C)]
#[derive(Clone, Copy)]
pub struct Outcome {
    pub verdict: Verdict,
    pub game: Game,
}

// A routine whose fields are all 0: its default. The function stays, since it is public and promises `blank`.
pub fn blank_routine() -> Routine
    ensures { result ≡ blank }
{
    Routine::default()
}

// A game whose fields are all 0: what set-up begins from, and a game to be lent to it. Not derived: an array of more than 32 has no
// Default.
#[tactic(auto, unfolding(crate::specs::Game::blank_game))]
pub fn blank_game() -> Game
    ensures { result ≡ blank_game }
{
    let items = [0; MOST_ENTRIES];
    let line = Line { items, len: 0 };
    Game {
        counts: Counts::default(),
        routines: [blank_routine(); MOST_ROUTINES],
        counters: [0; MOST_COUNTERS],
        listed: line,
        starting: line,
        broadcast: [false; MOST_SIGNALS],
    }
}

// A routine joins the set to stop. This and the next two differ in a field alone, which no parameter of a generic function can stand for.
pub fn with_stop(routine: Routine) -> Routine
    ensures { result ≡ with_stop routine }
{
    Routine {
        stopping: true,
        ..routine
    }
}

// A routine joins the set to suspend.
pub fn with_suspend(routine: Routine) -> Routine
    ensures { result ≡ with_suspend routine }
{
    Routine {
        suspending: true,
        ..routine
    }
}

// A routine joins the set to resume.
pub fn with_resume(routine: Routine) -> Routine
    ensures { result ≡ with_resume routine }
{
    Routine {
        resuming: true,
        ..routine
    }
}

// Those to start, after a start of a routine, which is in this stage: one that is not in stage 0, or is already to start, adds nothing.
#[tactic(auto, unfolding(crate::specs::Game::with_start))]
pub fn with_start(line: Line, routine: u8, stage: u8) -> Line
    ensures { result ≡ with_start line routine stage }
{
    if stage == NOT_STARTED && !is_in(line, routine) {
        push(line, routine)
    } else {
        line
    }
}
