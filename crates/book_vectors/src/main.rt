#![tactic(auto)]
// Reads the books of the input, a line each: the number and the place expected, and the bytes in hexadecimal (`-` for none).
// Prints what reading each book answers, and whether that is what its line expects.

use digits::decimal;
use hexadecimal::{LONGEST, read_bytes};
use std::fmt;
use std::fmt::Write;
use verdicts::{Verdict, verdict_of};
use words::{first, part, rest};

// The bytes that are kept of the input.
const INPUT: usize = 524288;

// The standard output. The crate `io` writes to it, and not std's `Print`, which would assume a call of C more (`rattle_errno`).
// `scripts` has a `tell` and a `Told` too, but stands on games, of which this program needs none.
#[derive(Clone, Copy)]
struct Output;

impl fmt::Write for Output {
    fn write_str(&mut self, text: &str) -> fmt::Result {
        io::write_all(1, text.as_bytes());
        Ok(())
    }
}

// Prints a line, whose end is part of its text: each part is a write of its own, and the end would be one more.
fn tell<D: fmt::Display + Drop>(line: D) {
    let _ = write!(Output, "{line}");
}

// A number and a place.
#[derive(Clone, Copy, PartialEq)]
struct Answer {
    number: u32,
    place: u32,
}

impl From<Verdict> for Answer {
    fn from(verdict: Verdict) -> Answer {
        Answer {
            number: verdict.number,
            place: verdict.place,
        }
    }
}

impl fmt::Display for Answer {
    fn fmt<W: fmt::Write>(&self, f: &mut fmt::Formatter<W>) -> fmt::Result {
        let number = self.number;
        let place = self.place;
        write!(f, "{number} {place}")
    }
}

// What reading a book answers, beside what its line expects.
#[derive(Clone, Copy)]
struct Compared {
    found: Answer,
    expected: Answer,
}

impl Compared {
    fn is_same(self) -> bool {
        self.found == self.expected
    }
}

impl fmt::Display for Compared {
    fn fmt<W: fmt::Write>(&self, f: &mut fmt::Formatter<W>) -> fmt::Result {
        let found = self.found;
        let expected = self.expected;
        if self.is_same() {
            return write!(f, "{found} =\n");
        }
        write!(f, "{found} expected {expected}\n")
    }
}

// Why a line has no answer.
#[derive(Clone, Copy)]
enum Unread {
    Unreadable,
    TooLong,
}

impl fmt::Display for Unread {
    fn fmt<W: fmt::Write>(&self, f: &mut fmt::Formatter<W>) -> fmt::Result {
        f.write_str(match self {
            Unread::Unreadable => "not a line of number, place and book\n",
            Unread::TooLong => "book too long\n",
        })
    }
}

// What reading the book whose digits are `text` answers.
fn answer_on(text: &[u8]) -> Result<Answer, Unread> {
    if LONGEST * 2 < text.len() {
        return Err(Unread::TooLong);
    }
    let mut book = [0u8; LONGEST];
    let count = read_bytes(text, &mut book).ok_or(Unread::Unreadable)?;
    let answer = reading::read_book(part(&book, count));
    Ok(Answer::from(verdict_of(answer)))
}

fn compare(line: &[u8]) -> Result<Compared, Unread> {
    let behind = rest(line);
    let number = decimal(first(line)).ok_or(Unread::Unreadable)?;
    let place = decimal(first(behind)).ok_or(Unread::Unreadable)?;
    let found = answer_on(rest(behind))?;
    let expected = Answer { number, place };
    Ok(Compared { found, expected })
}

// One line: whether its book is answered as the line expects.
fn check_line(line: &[u8]) -> bool {
    match compare(line) {
        Ok(compared) => {
            tell(compared);
            compared.is_same()
        }
        Err(unread) => {
            tell(unread);
            false
        }
    }
}

fn check_lines(text: &[u8]) {
    let mut books: usize = 0;
    let mut differ: usize = 0;
    for line in text.split_inclusive(|c| *c == b'\n') {
        books = books.saturating_add(1);
        if !check_line(line.strip_suffix(b"\n").unwrap_or(line)) {
            differ = differ.saturating_add(1);
        }
    }
    tell(format_args!("{books} books, {differ} differ\n"));
}

fn run(buffer: &mut [u8; INPUT]) {
    let n = io::read_full(0, buffer);
    if n == INPUT {
        tell("input too long\n");
        return;
    }
    check_lines(part(buffer, n));
}

fn main() {
    let mut buffer = [0u8; INPUT];
    run(&mut buffer);
}
