// The arrays of a game, filled from a stored one.
ghost use Rattle.std.specs.Prelude.{ℕ, ◌≡◌, ◌≤◌, ◌<◌, true, length};
ghost use Rattle.numbers.specs.Numbers.{half_at};
ghost use Rattle.lines.specs.Lines.{most_entries};
ghost use Rattle.stored_games.specs.Reading.{list_end, in_slots, line_in, game_in, is_formed};

use crate::fields::{number_at, routine_by_record, signal_in};
use crate::formed::StoredBytes;
use game::{Game, blank_routine};
use lines::Line;
use numbers::half_at;
use stored_games::{COUNT_BYTES, COUNTER_BYTES};

// So many values of a function, and one and the same in the other slots.
fn in_slots<T: Copy, const N: usize, F: Fn(usize) -> T>(count: usize, value: F, other: T) -> [T; N]
    requires few { count ≤ N }
    requires callable { (i : ℕ) → i < count → F.pre value i }
    ensures { (f : ℕ → T) → ((i : ℕ) (r : T) → i < count → F.post value i r → r ≡ f i) → result ≡ in_slots N count f other }
{
    // By number, which is what the function takes: iter_mut would have to be numbered for it.
    let mut slots = [other; N];
    for i in 0..count {
        slots[i] = value(i);
    }
    slots
}

impl StoredBytes<'_> {
    // A list of routines.
    fn line(&self, from: usize) -> Line
        requires { (half_at self.now.bytes.now from ≤ most_entries) × (list_end self.now.bytes.now from ≤ length self.now.bytes.now) }
        ensures { result ≡ line_in self.now.bytes.now from }
    {
        let len = half_at(self.bytes, from);
        let entries = from + COUNT_BYTES;
        let items = in_slots(len, |i| self.bytes[entries + i], 0);
        Line { items, len }
    }

    // The game that bytes of a form stand for.
    pub fn game(&self) -> Game
        requires { is_formed self.now.form.form self.now.bytes.now ≡ true }
        ensures { result ≡ game_in self.now.form.form self.now.bytes.now }
    {
        let counts = self.counts();
        let parts = self.parts();
        let routines = in_slots(
            counts.routines,
            |r| routine_by_record(self.record(r)),
            blank_routine(),
        );
        let counters = in_slots(
            counts.counters,
            |c| number_at(self.bytes, parts.counters + COUNTER_BYTES * c),
            0,
        );
        let broadcast = in_slots(
            counts.signals,
            |e| signal_in(self.bytes, parts.broadcast, e),
            false,
        );
        Game {
            counts,
            routines,
            counters,
            listed: self.line(parts.listed),
            starting: self.line(parts.starting),
            broadcast,
        }
    }
}
