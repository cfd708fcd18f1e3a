// What is printed: verdicts, bytes and games. Nearly every line is a name with numbers behind it.
ghost use Rattle.std.specs.Prelude.{◌≡◌};

use crate::NotCommand;
use game::{Game, Routine};
use layout::MOST_COUNTERS;
use std::fmt;
use std::fmt::Write;
use texts::Text;
use verdicts::Verdict;
use words::part;

// The bytes that a line has room for before it is printed: more than any line has, but for those with bytes.
const LINE: usize = 1024;

// A line as far as it is put together: an array and how much of it is used, since there is no heap.
// What is full is printed, and the line goes on. The crate `io` prints it, and not std's `Print`,
// which would assume a call of C more (`rattle_errno`).
#[derive(Drop)]
struct Line {
    text: [u8; LINE],
    used: usize,
}

impl Line {
    fn new() -> Line {
        Line {
            text: [0; LINE],
            used: 0,
        }
    }

    fn put(&mut self, byte: u8) {
        if LINE <= self.used {
            self.print();
        }
        self.text[self.used] = byte;
        self.used += 1;
    }

    // The digits of bytes, each byte's by its proved text: with `{:02x}` a routine was shown in six times the time. Where the digits of a
    // byte find no room, what is there is printed first.
    fn put_bytes(&mut self, bytes: &[u8]) {
        let mut used = self.used;
        for byte in bytes {
            if LINE - 2 < used {
                texts::print(&self.text, used);
                used = 0;
            }
            let mut text = Text {
                out: &mut self.text,
                used,
            };
            text.put_byte(*byte);
            used = text.used;
        }
        self.used = used;
    }

    // Prints what is there, and goes on with nothing.
    fn print(&mut self)
        ensures { self.new.used ≡ 0 }
    {
        texts::print(&self.text, self.used);
        self.used = 0;
    }

    // Prints an answer as a line.
    fn tell<D: fmt::Display + Drop>(&mut self, answer: D) {
        let _ = write!(self, "{answer}");
        self.finish();
    }

    // Prints the line with its end. One that just fills the room has none for its end, and is printed without it.
    fn finish(&mut self) {
        if self.used < LINE {
            self.put(b'\n');
        }
        self.print();
    }
}

impl fmt::Write for Line {
    fn write_str(&mut self, text: &str) -> fmt::Result {
        for byte in text.as_bytes() {
            self.put(*byte);
        }
        Ok(())
    }
}

// Prints an answer as a line.
pub fn tell<D: fmt::Display + Drop>(answer: D) {
    Line::new().tell(answer);
}

// Prints the digits of bytes, `-` for none, behind what is told first.
pub fn print_bytes<D: fmt::Display + Drop>(first: D, bytes: &[u8]) {
    let mut line = Line::new();
    let _ = write!(line, "{first} ");
    if bytes.is_empty() {
        line.put(b'-');
    }
    line.put_bytes(bytes);
    line.finish();
}

impl fmt::Display for NotCommand {
    fn fmt<W: fmt::Write>(&self, f: &mut fmt::Formatter<W>) -> fmt::Result {
        f.write_str("not a command")
    }
}

// A verdict's number and place.
#[derive(Clone, Copy)]
pub struct Told(pub Verdict);

impl fmt::Display for Told {
    fn fmt<W: fmt::Write>(&self, f: &mut fmt::Formatter<W>) -> fmt::Result {
        let number = self.0.number;
        let place = self.0.place;
        write!(f, "{number} {place}")
    }
}

// Numbers, each with a space before it.
#[derive(Clone, Copy)]
pub struct Numbers<'a, N>(pub &'a [N]);

impl<N: fmt::Display> fmt::Display for Numbers<'_, N> {
    fn fmt<W: fmt::Write>(&self, f: &mut fmt::Formatter<W>) -> fmt::Result {
        for number in self.0 {
            write!(f, " {number}")?;
        }
        Ok(())
    }
}

// The numbers of the flags that are set, each with a space before it.
#[derive(Clone, Copy)]
struct Set<'a>(&'a [bool]);

impl fmt::Display for Set<'_> {
    fn fmt<W: fmt::Write>(&self, f: &mut fmt::Formatter<W>) -> fmt::Result {
        for (number, is_set) in self.0.iter().enumerate() {
            if *is_set {
                write!(f, " {number}")?;
            }
        }
        Ok(())
    }
}

fn print_routine(line: &mut Line, number: usize, routine: &Routine) {
    let stage = routine.stage;
    let suspended = u8::from(routine.suspended);
    let place = routine.place;
    let begun = u8::from(routine.begun);
    let left = routine.left;
    line.tell(format_args!("routine {number} {stage} {suspended} {place} {begun} {left}"));
}

fn print_set(line: &mut Line, name: &str, flags: &[bool]) {
    line.tell(format_args!("{name}{}", Set(flags)));
}

fn print_numbers<N: fmt::Display>(line: &mut Line, name: &str, numbers: &[N]) {
    line.tell(format_args!("{name}{}", Numbers(numbers)));
}

// All by one line, whose room is cleared once.
pub fn print_game(game: &Game) {
    let counts = game.counts;
    let routines = &game.routines;
    let line = &mut Line::new();
    print_numbers(
        line,
        "game",
        &[counts.routines, counts.signals, counts.counters],
    );
    for (number, routine) in routines.iter().take(counts.routines).enumerate() {
        print_routine(line, number, routine);
    }
    let counters = counts.counters.min(MOST_COUNTERS);
    print_numbers(line, "counters", &game.counters[..counters]);
    print_numbers(line, "listed", part(&game.listed.items, game.listed.len));
    print_numbers(
        line,
        "tostart",
        part(&game.starting.items, game.starting.len),
    );
    print_set(line, "tostop", &routines.map(|routine| routine.stopping));
    print_set(
        line,
        "tosuspend",
        &routines.map(|routine| routine.suspending),
    );
    print_set(line, "toresume", &routines.map(|routine| routine.resuming));
    print_set(line, "broadcast", &game.broadcast);
}
