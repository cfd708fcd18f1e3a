// Buffers that are lent for an answer.
use digits::decimal;
use scripts::{NotCommand, tell};

// What a buffer of bytes holds before a call.
pub const UNTOUCHED: u8 = 165;

// The front of a buffer, as long as `text` says or all that there is.
pub fn lend<'a, T>(text: &[u8], buffer: &'a mut [T]) -> Result<&'a mut [T], NotCommand> {
    // usize has no From<u32>.
    let length = decimal(text).ok_or(NotCommand)? as usize;
    if length < buffer.len() {
        return Ok(&mut buffer[..length]);
    }
    Ok(buffer)
}

// Tells whether an element behind those that are written has changed.
pub fn check_rest<T: PartialEq>(buffer: &[T], written: usize, untouched: &T, told: &str) {
    if buffer
        .iter()
        .skip(written)
        .any(|element| *element != *untouched)
    {
        tell(told);
    }
}

// The same of bytes.
pub fn check_bytes(buffer: &[u8], written: usize) {
    check_rest(
        buffer,
        written,
        &UNTOUCHED,
        "changed behind what is written",
    );
}
