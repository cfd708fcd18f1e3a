// Flags as bits of a number, lowest first.
ghost use Rattle.std.specs.Prelude.{◌≡◌, ◌<◌, length};
ghost use Rattle.layout.specs.Layout.{most_signals};
ghost use Rattle.numbers.specs.Numbers.{half_limit};
ghost use Rattle.stored_games.specs.Stored.{flags_of, set_byte};

use game::Routine;
use layout::MOST_SIGNALS;
use stored_games::BYTE_BITS;

// The flags of a routine: 1 suspended, 2 begun, 4 to stop, 8 to suspend, 16 to resume.
pub fn flags_of(x: Routine) -> u8
    ensures { result ≡ flags_of x }
{
    u8::from(x.suspended)
        + 2 * u8::from(x.begun)
        + 4 * u8::from(x.stopping)
        + 8 * u8::from(x.suspending)
        + 16 * u8::from(x.resuming)
}

// A byte of the set of signals: eight of its flags. None beyond the array is set.
pub fn set_byte(flags: &[bool; MOST_SIGNALS], byte: usize) -> u8
    requires { (length flags.now ≡ most_signals) × (byte < half_limit) }
    ensures { result ≡ set_byte flags.now byte }
{
    let from = byte * BYTE_BITS;
    let mut value: u8 = 0;
    // By number, highest first: a bit whose flag is not there counts as 0.
    for bit in (0..BYTE_BITS).rev() {
        let is_set = flags.get(from + bit).copied().unwrap_or(false);
        value = 2 * value + u8::from(is_set);
    }
    value
}
