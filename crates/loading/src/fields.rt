// Numbers, flags and routines at places of a stored game. Bytes past the end count as 0. That a place is small stays a clause: places are
// plain numbers, and a type of them would be taken apart at each sum.
ghost use Rattle.std.specs.Prelude.{◌≡◌, ◌+◌, ◌≤◌, ◌<◌, length, get_or};
ghost use Rattle.numbers.specs.Numbers.{signed};
ghost use Rattle.numbers.specs.Bytes.{word_at};
ghost use Rattle.stored_games.specs.Bits.{has_bit};
ghost use Rattle.stored_games.specs.Forms.{byte_bits};
ghost use Rattle.stored_games.specs.Stored.{counter_bytes};
ghost use Rattle.stored_games.specs.Reading.{signal_in, record_formed, routine_by_record};
ghost use Rattle.loading.specs.Places.{place_limit};

use game::{Routine, STOPPED};
use numbers::{half_at, number};
use stored_games::BYTE_BITS;

// The flags have five bits.
const FLAG_LIMIT: u8 = 32;

// A byte, 0 past the end.
pub fn byte_at(s: &[u8], at: usize) -> u8
    ensures { result ≡ get_or s.now at 0 }
{
    s.get(at).copied().unwrap_or(0)
}

// A number of 32 bits.
fn word_at(s: &[u8], at: usize) -> u32
    requires { at < place_limit }
    ensures { result ≡ word_at s.now at }
{
    u32::from_le_bytes([
        byte_at(s, at),
        byte_at(s, at + 1),
        byte_at(s, at + 2),
        byte_at(s, at + 3),
    ])
}

// A number of 32 bits in two's complement, which is there.
pub fn number_at(s: &[u8], at: usize) -> i32
    requires { at + counter_bytes ≤ length s.now }
    ensures { result ≡ signed (word_at s.now at) }
{
    number(s[at], s[at + 1], s[at + 2], s[at + 3])
}

// Whether a bit of a byte is set, the lowest being bit 0.
fn has_bit(byte: u8, bit: u8) -> bool
    requires { bit < byte_bits }
    ensures { result ≡ has_bit byte bit }
{
    (byte >> bit) % 2 == 1
}

// Whether a signal is in the set that begins at a place.
pub fn signal_in(s: &[u8], from: usize, signal: usize) -> bool
    requires { (from < place_limit) × (signal < place_limit) }
    ensures { result ≡ signal_in s.now from signal }
{
    has_bit(
        byte_at(s, from + signal / BYTE_BITS),
        // `as`, here and for the place: what has 3 or 16 bits loses nothing, and try_from would give an Err to handle.
        (signal % BYTE_BITS) as u8,
    )
}

// Whether the stage and the flags of a record are in their ranges.
pub fn record_formed(fields: &[u8]) -> bool
    ensures { result ≡ record_formed fields.now }
{
    byte_at(fields, 0) <= STOPPED && byte_at(fields, 1) < FLAG_LIMIT
}

// A routine, by its record.
#[tactic(auto, unfolding(stored_games::specs::Reading::routine_by_record))]
pub fn routine_by_record(fields: &[u8]) -> Routine
    ensures { result ≡ routine_by_record fields.now }
{
    let flags = byte_at(fields, 1);
    Routine {
        stage: byte_at(fields, 0),
        place: half_at(fields, 2) as u16,
        left: word_at(fields, 4),
        suspended: has_bit(flags, 0),
        begun: has_bit(flags, 1),
        stopping: has_bit(flags, 2),
        suspending: has_bit(flags, 3),
        resuming: has_bit(flags, 4),
    }
}
