// The parts of a stored game, each put into a buffer behind those before it.
ghost use Rattle.std.specs.Prelude.{◌≡◌, [], ◌∷◌, ◌+◌, ◌*◌, ◌≤◌, pos, length, get_or};
ghost use Rattle.layout.specs.Layout.{most_signals};
ghost use Rattle.lines.specs.Lines.{most_entries, used_of};
ghost use Rattle.numbers.specs.Bytes.{half_bytes, word_bytes, complement};
ghost use Rattle.stored_games.specs.Bits.{joined_below};
ghost use Rattle.stored_games.specs.Stored.{game_header_bytes, counter_bytes, count_bytes, length_of, game_header};
ghost use Rattle.stored_games.specs.Stored.{fields_of, record_of, line_bytes, set_byte, stored};
ghost use Rattle.storing.specs.Puts.{Writes, WithinLimits};

use crate::bits::{flags_of, set_byte};
use game::{Game, Routine};
use kinds::Counts;
use layout::MOST_SIGNALS;
use lines::{Line, used};
use stored_games::{COUNT_BYTES, FIELD_BYTES, GAME_HEADER_BYTES, UsableForm};

// How many numbers 16 bits hold.
const HALF_LIMIT: usize = 65536;

// A buffer that is written from its front on, and how many of its bytes are written. The buffer is lent, so its end stands beside it.
#[derive(Drop)]
pub struct Writer<'a> {
    pub out: &'a mut [u8],
    pub end: usize,
}

impl Writer<'_> {
    // Puts bytes behind those that are written.
    fn put(&mut self, bytes: &[u8])
        requires { self.old.end + length bytes.now ≤ length self.old.out.now }
        ensures { Writes bytes.now self.old self.new }
    {
        let end = self.end + bytes.len();
        self.out[self.end..end].copy_from_slice(bytes);
        self.end = end;
    }

    // A number of 16 bits.
    fn put_half(&mut self, n: usize)
        requires { self.old.end + count_bytes ≤ length self.old.out.now }
        ensures { Writes (half_bytes n) self.old self.new }
    {
        // `as` loses nothing of the remainder; try_from would give an Err to handle.
        self.put(&((n % HALF_LIMIT) as u16).to_le_bytes());
    }

    // The header.
    fn put_header(&mut self, form: UsableForm, counts: Counts)
        requires within_limits { WithinLimits counts }
        requires in_bounds { self.old.end + game_header_bytes ≤ length self.old.out.now }
        ensures { Writes (game_header form.form counts) self.old self.new }
    {
        self.put_half(form.form.number);
        self.put_half(counts.routines);
        self.put_half(counts.signals);
        self.put_half(counts.counters);
        self.put_half(GAME_HEADER_BYTES);
        self.put_half(form.counters_from(counts));
        self.put_half(form.lists_from(counts));
    }

    // The record of a routine.
    #[tactic(auto, unfolding(stored_games::specs::Stored::record_of))]
    fn put_record(&mut self, form: UsableForm, x: Routine)
        requires { self.old.end + form.form.recordsize ≤ length self.old.out.now }
        ensures { Writes (record_of form.form x) self.old self.new }
    {
        let fields = fields_of(x);
        let size = form.form.recordsize;
        self.put(&fields[0..size]);
    }

    // Counters.
    fn put_counters(&mut self, values: &[i32])
        requires { self.old.end + length values.now * counter_bytes ≤ length self.old.out.now }
        ensures { Writes (joined_below (length values.now) (λ c. word_bytes (complement (get_or values.now c (pos 0))))) self.old self.new }
    {
        for value in values {
            self.put(&value.to_le_bytes());
        }
    }

    // A list of routines.
    fn put_line(&mut self, line: Line)
        requires { self.old.end + count_bytes + used_of line ≤ length self.old.out.now }
        ensures { Writes (line_bytes line) self.old self.new }
    {
        let items = line.items;
        let all = used(line);
        self.put_half(line.len);
        self.put(&items[0..all]);
    }

    // The set of signals to broadcast.
    fn put_set(&mut self, form: UsableForm, flags: &[bool; MOST_SIGNALS])
        requires { (length flags.now ≡ most_signals) × (self.old.end + form.form.setsize ≤ length self.old.out.now) }
        ensures { Writes (joined_below form.form.setsize (λ k. set_byte flags.now k ∷ [])) self.old self.new }
    {
        // By number: a form may have more bytes here than there are flags for, so that chunks of the flags would not do.
        for byte in 0..form.form.setsize {
            self.put(&[set_byte(flags, byte)]);
        }
    }

    // A game.
    pub fn put_game(&mut self, form: UsableForm, game: Game)
        requires within_limits { WithinLimits game.counts }
        requires in_bounds { self.old.end + length_of form.form game.counts (used_of game.listed) (used_of game.starting)
            ≤ length self.old.out.now }
        ensures { Writes (stored form.form game) self.old self.new }
    {
        let counts = game.counts;
        self.put_header(form, counts);
        for routine in &game.routines[0..counts.routines] {
            self.put_record(form, *routine);
        }
        self.put_counters(&game.counters[0..counts.counters]);
        self.put_line(game.listed);
        self.put_line(game.starting);
        self.put_set(form, &game.broadcast);
    }
}

// The fields of a routine's record.
fn fields_of(x: Routine) -> [u8; FIELD_BYTES]
    ensures { result ≡ fields_of x }
{
    let place = x.place.to_le_bytes();
    let left = x.left.to_le_bytes();
    [
        x.stage,
        flags_of(x),
        place[0],
        place[1],
        left[0],
        left[1],
        left[2],
        left[3],
    ]
}

// How many bytes a game takes, with so many entries in its two lists. That R and C are within limits stays a clause, here and in the
// writer: they are fields of C's Game, which may have any values.
#[tactic(auto, unfolding(stored_games::specs::Stored::length_of))]
pub fn stored_length(form: UsableForm, counts: Counts, listed: usize, starting: usize) -> usize
    requires within_limits { WithinLimits counts }
    requires listed_le_most_entries { (listed ≤ most_entries) × (starting ≤ most_entries) }
    ensures { result ≡ length_of form.form counts listed starting }
{
    form.lists_from(counts) + COUNT_BYTES + listed + COUNT_BYTES + starting + form.form.setsize
}
