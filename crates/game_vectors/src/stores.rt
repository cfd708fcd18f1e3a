// Games that are stored in a buffer, and read from bytes.
use crate::buffers::{UNTOUCHED, check_bytes, lend};
use scripts::{Bytes, NotCommand, State, Told, print_bytes, tell};
use storing::Stored;
use words::part;

// The bytes of the longest buffer that is lent. A longer one would be answered alike, for no game that fits takes more than 858.
pub const LONGEST_BUFFER: usize = 1024;

fn print_stored(stored: &Stored, buffer: &[u8]) {
    let verdict = Told(stored.verdict);
    let length = stored.length;
    let bytes = part(buffer, length);
    print_bytes(format_args!("store {verdict} {length}"), bytes);
}

// Stores the game in a buffer of so many bytes as `text` says.
pub fn store(text: &[u8], state: &State) -> Result<(), NotCommand> {
    let mut all = [UNTOUCHED; LONGEST_BUFFER];
    let buffer = lend(text, &mut all)?;
    let stored = storing::store(state.book(), state.poked.lent(), buffer);
    print_stored(&stored, buffer);
    check_bytes(buffer, stored.length);
    Ok(())
}

// Takes the game that is stored as the bytes whose digits are `text`.
pub fn load(text: &[u8], state: &mut State) -> Result<(), NotCommand> {
    let mut bytes = Bytes::none();
    bytes.take(text)?;
    let outcome = loading::load(state.book(), bytes.as_slice(), state.poked.game);
    let verdict = Told(outcome.verdict);
    tell(format_args!("load {verdict}"));
    state.poked.replace(outcome);
    Ok(())
}
