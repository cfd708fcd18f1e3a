// The routines that nobody starts, named in a buffer.
use crate::buffers::{UNTOUCHED, check_bytes, lend};
use scripts::{NotCommand, Numbers, Told, tell};
use unstarted::UnstartedNames;
use words::part;

// The bytes of the longest buffer that is lent. A longer one would be answered alike, for 64 are enough for the names of any book.
const LONGEST_BUFFER: usize = 256;

fn print_names(answer: &UnstartedNames, buffer: &[u8]) {
    let verdict = Told(answer.verdict);
    let count = answer.count;
    let names = Numbers(part(buffer, count));
    tell(format_args!("unstarted {verdict} {count}{names}"));
}

// Names the routines in a buffer of so many bytes as `text` says.
pub fn unstarted(text: &[u8], book: &[u8]) -> Result<(), NotCommand> {
    let mut all = [UNTOUCHED; LONGEST_BUFFER];
    let buffer = lend(text, &mut all)?;
    let answer = unstarted::unstarted(book, buffer);
    print_names(&answer, buffer);
    check_bytes(buffer, answer.count);
    Ok(())
}
