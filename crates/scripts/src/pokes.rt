// Pokes: one field of a game is overwritten, with any signed number of 32 bits. A name that no field has and an index past the end are
// told, and leave the game as it is.
//
// A number that the field's type cannot hold stands for a game that fits no book. A field that is a number then gets one that fits none; a
// flag has no such value, and is noted beside the game.
ghost use Rattle.std.specs.Prelude.{◌≡◌, ◌<◌, ◌≤◌, if◌then◌else◌, length, OnOk, OnErr};
ghost use Rattle.game.specs.Game.{blank_game};
ghost use Rattle.scripts.specs.Pokes.{any_of, is_any};

use crate::NotCommand;
use game::{Game, Outcome, Routine, blank_game};
use layout::{MOST_ROUTINES, MOST_SIGNALS};

// The flags of a routine, and how many they are.
#[derive(Clone, Copy)]
enum Flag {
    Suspended,
    Begun,
    Stopping,
    Suspending,
    Resuming,
}

const ROUTINE_FLAGS: usize = 5;

// The fields of a routine.
#[derive(Clone, Copy)]
enum RoutineField {
    Flag(Flag),
    Stage,
    Place,
    Left,
}

// The fields of a game: some are one number, and of the others an index says which.
#[derive(Clone, Copy)]
enum Field {
    Routines,
    Signals,
    Counters,
    ListedLength,
    StartingLength,
    Listed,
    Starting,
    Broadcast,
    Counter,
    OfRoutine(RoutineField),
}

impl TryFrom<&[u8]> for RoutineField {
    type Error = NotCommand;

    fn try_from(name: &[u8]) -> Result<RoutineField, NotCommand> {
        match name {
            b"susp" => Ok(RoutineField::Flag(Flag::Suspended)),
            b"begun" => Ok(RoutineField::Flag(Flag::Begun)),
            b"tostop" => Ok(RoutineField::Flag(Flag::Stopping)),
            b"tosuspend" => Ok(RoutineField::Flag(Flag::Suspending)),
            b"toresume" => Ok(RoutineField::Flag(Flag::Resuming)),
            b"stage" => Ok(RoutineField::Stage),
            b"place" => Ok(RoutineField::Place),
            b"left" => Ok(RoutineField::Left),
            _ => Err(NotCommand),
        }
    }
}

impl TryFrom<&[u8]> for Field {
    type Error = NotCommand;

    fn try_from(name: &[u8]) -> Result<Field, NotCommand> {
        match name {
            b"R" => Ok(Field::Routines),
            b"E" => Ok(Field::Signals),
            b"C" => Ok(Field::Counters),
            b"listed_len" => Ok(Field::ListedLength),
            b"tostart_len" => Ok(Field::StartingLength),
            b"listed" => Ok(Field::Listed),
            b"tostart" => Ok(Field::Starting),
            b"broadcast" => Ok(Field::Broadcast),
            b"counter" => Ok(Field::Counter),
            _ => Ok(Field::OfRoutine(RoutineField::try_from(name)?)),
        }
    }
}

// Which flags of a game were last overwritten with a number other than 0 and 1.
#[derive(Clone, Copy)]
struct Unheld {
    routines: [[bool; ROUTINE_FLAGS]; MOST_ROUTINES],
    broadcast: [bool; MOST_SIGNALS],
}

impl Unheld {
    fn none() -> Unheld {
        Unheld {
            routines: [[false; ROUTINE_FLAGS]; MOST_ROUTINES],
            broadcast: [false; MOST_SIGNALS],
        }
    }

    fn is_any(&self) -> bool
        ensures { result ≡ is_any self.now }
    {
        any_of(self.routines.as_flattened()) || any_of(&self.broadcast)
    }
}

fn any_of(flags: &[bool]) -> bool
    ensures { result ≡ any_of flags.now }
{
    flags.iter().any(|flag| *flag)
}

// A game, and which of its flags stand for a number that they cannot hold.
#[derive(Clone, Copy)]
pub struct Poked {
    pub game: Game,
    unheld: Unheld,
}

// A game with no such flag.
impl From<Game> for Poked {
    ghost from_gives = { λ game poked. poked.game ≡ game };

    fn from(game: Game) -> Poked {
        Poked {
            game,
            unheld: Unheld::none(),
        }
    }
}

impl Poked {
    // The game that an order, a round or storing is lent: the blank one, which fits no book, in place of one with such a flag.
    pub fn lent(&self) -> Game
        ensures { result ≡ (if is_any self.now.unheld then blank_game else self.now.game) }
    {
        if self.unheld.is_any() {
            return blank_game();
        }
        self.game
    }

    // Takes the game that an order or a round gave back: a game that it was not lent stays.
    pub fn give(&mut self, game: Game)
        ensures { self.new ≡ (if is_any self.old.unheld then self.old else record self.old { game = game }) }
    {
        if !self.unheld.is_any() {
            self.game = game;
        }
    }

    // Takes what a set-up or a reading of a stored game leaves: where it is refused, the game and its flags stay. `Outcome` is a struct of
    // C, and tells a refusal by the verdict's number.
    pub fn replace(&mut self, outcome: Outcome)
        ensures { self.new.game ≡ outcome.game }
    {
        self.game = outcome.game;
        if outcome.verdict.number == 0 {
            self.unheld = Unheld::none();
        }
    }

    // Overwrites the field of this name with the number whose two's complement is `value`; that of a negative one is larger than any that
    // fits a book. The index counts where there are several.
    pub fn poke(&mut self, name: &[u8], index: usize, value: u32) -> Result<(), NotCommand>
        ensures { OnErr result (self.new ≡ self.old) }
    {
        let game = &mut self.game;
        // usize has no From<u32>.
        let number = value as usize;
        match Field::try_from(name)? {
            Field::Routines => game.counts.routines = number,
            Field::Signals => game.counts.signals = number,
            Field::Counters => game.counts.counters = number,
            Field::ListedLength => game.listed.len = number,
            Field::StartingLength => game.starting.len = number,
            Field::Listed => put(&mut game.listed.items, index, byte(value))?,
            Field::Starting => put(&mut game.starting.items, index, byte(value))?,
            Field::Counter => put(&mut game.counters, index, value.cast_signed())?,
            Field::Broadcast => {
                put(&mut game.broadcast, index, value == 1)?;
                put(&mut self.unheld.broadcast, index, 1 < value)?;
            }
            Field::OfRoutine(of_routine) => self.poke_routine(of_routine, index, value)?,
        }
        Ok(())
    }

    fn poke_routine(
        &mut self,
        field: RoutineField,
        index: usize,
        value: u32,
    ) -> Result<(), NotCommand>
        ensures { OnErr result (self.new ≡ self.old) }
    {
        if MOST_ROUTINES <= index {
            return Err(NotCommand);
        }
        let routine = &mut self.game.routines[index];
        match field {
            RoutineField::Stage => routine.stage = byte(value),
            RoutineField::Place => routine.place = half(value),
            RoutineField::Left => routine.left = value,
            RoutineField::Flag(flag) => {
                put_flag(routine, flag, value == 1);
                // A case's number is had by `as` alone.
                self.unheld.routines[index][flag as usize] = 1 < value;
            }
        }
        Ok(())
    }
}

// Overwrites the element at an index; an index past the end is told.
fn put<T: Copy>(all: &mut [T], index: usize, value: T) -> Result<(), NotCommand>
    ensures within { OnOk result (index < length all.old) }
    ensures past { OnErr result (length all.old ≤ index) }
    ensures stays { OnErr result (all.new ≡ all.old) }
{
    if index < all.len() {
        all[index] = value;
        return Ok(());
    }
    Err(NotCommand)
}

fn put_flag(routine: &mut Routine, flag: Flag, value: bool) {
    match flag {
        Flag::Suspended => routine.suspended = value,
        Flag::Begun => routine.begun = value,
        Flag::Stopping => routine.stopping = value,
        Flag::Suspending => routine.suspending = value,
        Flag::Resuming => routine.resuming = value,
    }
}

// What a byte and a number of 16 bits get: the largest, which fits no book, in place of a number that they cannot hold.
fn byte(value: u32) -> u8 {
    u8::try_from(value).unwrap_or(u8::MAX)
}

fn half(value: u32) -> u16 {
    u16::try_from(value).unwrap_or(u16::MAX)
}
