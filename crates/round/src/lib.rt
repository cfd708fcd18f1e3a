#![tactic(auto)]
// A round: the types in which the definitions of specs/ and the code that plays say what a step comes to.
use numbers::Sum;

// How a turn ends: the routine has ended, rested, rested because what its step asks for was missing, or is to be continued. The two ways to
// rest play alike; they are told apart for those who ask why a routine rests.
#[derive(Clone, Copy)]
pub enum Ending {
    Ended,
    Rested,
    Missed,
    Continued,
}

// Where a routine stands: its place, begun or not, and the count left.
// begun and left are no Option: a turn leaves both in game::Routine, which C reads, and a count left even where
// nothing is begun (`behind_turn`).
#[derive(Clone, Copy)]
pub struct Position {
    pub place: usize,
    pub begun: bool,
    pub left: usize,
}

// What a step changes: nothing, a mark that it leaves, a counter that gets a number or a sum, a signal given without or with a number,
// a routine that it starts, stops, suspends or resumes.
#[derive(Clone, Copy)]
pub enum Effect {
    Nothing,
    Mark(i32),
    Put(usize, i32),
    Add(usize, Sum),
    Give(usize),
    GiveNumber(usize, i32),
    Start(usize),
    Stop(usize),
    Suspend(usize),
    Resume(usize),
}

// What a step comes to: the turn goes on at a place once the effect is there, or it ends and leaves the routine at a position.
// No Result: neither is a failure, and the definition `tick_of` answers these two cases.
#[derive(Clone, Copy)]
pub enum Act {
    Goes(usize, Effect),
    Halts(Ending, Position),
}
