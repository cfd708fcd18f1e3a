// A stored game with a single byte changed: every such change of the current game is read, and the answers are counted.
use crate::buffers::UNTOUCHED;
use crate::stores::LONGEST_BUFFER;
use game::Game;
use scripts::{NotCommand, Numbers, State, Told, tell};
use verdicts::{Refusal, Verdict};
use words::part;

// The ways in which changed bytes are answered: refused with 13, refused with 9, accepted as the game that is stored as these bytes, and
// anything else.
#[derive(Clone, Copy)]
enum Way {
    Form,
    Fit,
    Same,
    Other,
}

// How many changes were tried, and how many of them were answered in each way.
#[derive(Clone, Copy, Default)]
struct Tally {
    tried: usize,
    form: usize,
    fit: usize,
    same: usize,
    other: usize,
}

impl Tally {
    fn count(&mut self, way: Way) {
        self.tried = self.tried.saturating_add(1);
        match way {
            Way::Form => self.form = self.form.saturating_add(1),
            Way::Fit => self.fit = self.fit.saturating_add(1),
            Way::Same => self.same = self.same.saturating_add(1),
            Way::Other => self.other = self.other.saturating_add(1),
        }
    }

    fn print(self) {
        let numbers = [self.tried, self.form, self.fit, self.same, self.other];
        tell(format_args!("changes{}", Numbers(&numbers)));
    }
}

// The bytes that a game is stored as, at the front of a buffer: an array and its length, since there is no heap.
#[derive(Clone, Copy)]
struct StoredBytes {
    buffer: [u8; LONGEST_BUFFER],
    length: usize,
}

impl StoredBytes {
    // Those of a game, or why it is refused.
    fn of(book: &[u8], game: Game) -> Result<StoredBytes, Verdict> {
        let mut buffer = [UNTOUCHED; LONGEST_BUFFER];
        let stored = storing::store(book, game, &mut buffer);
        // By its number: `store` answers C's Stored, which is no Result.
        if stored.verdict.number != 0 {
            return Err(stored.verdict);
        }
        let length = stored.length;
        Ok(StoredBytes { buffer, length })
    }

    fn bytes(&self) -> &[u8] {
        part(&self.buffer, self.length)
    }

    fn put(&mut self, at: usize, value: u8) {
        if at < LONGEST_BUFFER {
            self.buffer[at] = value;
        }
    }
}

// A game, the book that it belongs to, and what it is stored as.
#[derive(Clone, Copy)]
struct Kept<'a> {
    book: &'a [u8],
    game: Game,
    stored: StoredBytes,
}

impl Kept<'_> {
    // Whether a game is stored as these bytes.
    fn is_stored_as(&self, game: Game, bytes: &[u8]) -> bool {
        match StoredBytes::of(self.book, game) {
            Ok(stored) => stored.bytes() == bytes,
            Err(_) => false,
        }
    }

    // How changed bytes are answered. A refusal has to leave the lent game, which is stored as the bytes that were kept.
    fn way_of(&self, changed: &[u8]) -> Way {
        let outcome = loading::load(self.book, changed, self.game);
        let kept = self.stored.bytes();
        let told = outcome.verdict;
        let (way, bytes) = if told == Verdict::default() {
            (Way::Same, changed)
        } else if told == Verdict::from(Refusal::Unfit) {
            (Way::Fit, kept)
        } else if told == Verdict::from(Refusal::WrongForm) {
            (Way::Form, kept)
        } else {
            return Way::Other;
        };
        if self.is_stored_as(outcome.game, bytes) {
            way
        } else {
            Way::Other
        }
    }

    // Tries the other values of a byte.
    fn change_byte(&self, at: usize, old: u8, tally: &mut Tally) {
        let mut changed = self.stored;
        for value in 0..=u8::MAX {
            if value != old {
                changed.put(at, value);
                tally.count(self.way_of(changed.bytes()));
            }
        }
    }

    // Tries every change of a byte.
    fn change_all(&self) -> Tally {
        let mut tally = Tally::default();
        for (at, old) in self.stored.bytes().iter().enumerate() {
            self.change_byte(at, *old, &mut tally);
        }
        tally
    }
}

// Stores the game, and tries every change of a byte. No text belongs to the command.
pub fn changes(text: &[u8], state: &State) -> Result<(), NotCommand> {
    if !text.is_empty() {
        return Err(NotCommand);
    }
    let book = state.book();
    let game = state.poked.lent();
    match StoredBytes::of(book, game) {
        Ok(stored) => Kept { book, game, stored }.change_all().print(),
        Err(verdict) => tell(format_args!("changes {}", Told(verdict))),
    }
    Ok(())
}
