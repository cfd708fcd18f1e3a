#![tactic(auto)]
// The commands of a script on a book and a game, but for rounds. A line that is no command is told.

mod pokes;
mod printing;

ghost use Rattle.std.specs.Prelude.{◌≡◌, take, OnOk, OnErr};
ghost use Rattle.hexadecimal.specs.Hex.{bytes_in, written_in};

use digits::{decimal, read_pair};
use game::Game;
use hexadecimal::{LONGEST, read_bytes};
pub use pokes::Poked;
use printing::print_game;
pub use printing::{Numbers, Told, print_bytes, tell};
use words::{first, part, rest};

// A line that is no command.
#[derive(Clone, Copy)]
pub struct NotCommand;

// Bytes that were read from a word of hexadecimal digits: an array and how many of it count, since there is no heap.
#[derive(Drop)]
pub struct Bytes {
    pub buffer: [u8; LONGEST],
    pub count: usize,
}

impl Bytes {
    pub fn none() -> Bytes
        ensures { result.count ≡ 0 }
    {
        Bytes {
            buffer: [0; LONGEST],
            count: 0,
        }
    }

    // Takes the bytes whose digits are `text`, in place of those that are there; they stay where `text` stands for none.
    pub fn take(&mut self, text: &[u8]) -> Result<(), NotCommand>
        ensures taken { OnOk result (bytes_in text.now ≡ Some self.new.count) }
        ensures stays { OnErr result (self.new.count ≡ self.old.count) }
        ensures written { self.new.buffer ≡ written_in text.now self.old.buffer }
    {
        self.count = read_bytes(text, &mut self.buffer).ok_or(NotCommand)?;
        Ok(())
    }

    pub fn as_slice(&self) -> &[u8]
        ensures { result.now ≡ take self.now.count self.now.buffer }
    {
        part(&self.buffer, self.count)
    }
}

// The current book and game of a script.
#[derive(Drop)]
pub struct State {
    pub book: Bytes,
    pub poked: Poked,
}

impl State {
    // No book, and this game.
    pub fn new(game: Game) -> State
        ensures { result.poked.game ≡ game }
    {
        State {
            book: Bytes::none(),
            poked: Poked::from(game),
        }
    }

    pub fn book(&self) -> &[u8]
        ensures { result.now ≡ take self.now.book.count self.now.book.buffer }
    {
        self.book.as_slice()
    }

    // Takes the book whose digits are `text` in place of the current one, which stays where `text` is no book.
    pub fn take_book(&mut self, text: &[u8]) {
        if let Err(wrong) = self.book.take(text) {
            tell(wrong);
        }
    }

    // Carries a command out.
    pub fn command(&mut self, line: &[u8]) {
        if let Err(wrong) = self.short_command(line) {
            tell(wrong);
        }
    }

    fn short_command(&mut self, line: &[u8]) -> Result<(), NotCommand> {
        match line {
            b"read" => self.read(),
            b"setup" => self.set_up(),
            b"dump" => print_game(&self.poked.game),
            _ => return self.long_command(line),
        }
        Ok(())
    }

    // A command of several words.
    fn long_command(&mut self, line: &[u8]) -> Result<(), NotCommand> {
        let text = rest(line);
        match first(line) {
            b"show" => self.show(text),
            b"order" => self.order(text),
            b"poke" => self.poke(text),
            _ => Err(NotCommand),
        }
    }

    fn read(&self) {
        let answer = reading::read_book(self.book());
        let verdict = Told(verdicts::verdict_of(answer));
        tell(format_args!("read {verdict}"));
    }

    fn show(&self, text: &[u8]) -> Result<(), NotCommand> {
        let routine = decimal(text).ok_or(NotCommand)?;
        // By `as`, here and in `poke`: usize has no From<u32>.
        print_bytes("show", reading::show(self.book(), routine as usize));
        Ok(())
    }

    fn set_up(&mut self) {
        let outcome = setup::set_up(self.book(), self.poked.game);
        let verdict = Told(outcome.verdict);
        tell(format_args!("setup {verdict}"));
        self.poked.replace(outcome);
    }

    fn order(&mut self, text: &[u8]) -> Result<(), NotCommand> {
        let (kind, number) = read_pair(text, false).ok_or(NotCommand)?;
        let outcome = ordering::order(self.book(), self.poked.lent(), kind, number);
        let verdict = Told(outcome.verdict);
        tell(format_args!("order {verdict}"));
        self.poked.give(outcome.game);
        Ok(())
    }

    fn poke(&mut self, text: &[u8]) -> Result<(), NotCommand> {
        let (index, value) = read_pair(rest(text), true).ok_or(NotCommand)?;
        self.poked.poke(first(text), index as usize, value)
    }
}
