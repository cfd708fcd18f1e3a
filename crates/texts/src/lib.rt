#![tactic(auto)]
// Texts that are put one behind another into a lent buffer, numbers among them.
ghost use Rattle.std.specs.Prelude.{◌++◌, ℕ, List};
ghost use Rattle.texts.specs.Texts.{decimal_text, signed_text, hex_text};
ghost use Rattle.texts.specs.Held.{Puts};

use words::part;

// A lent buffer, and how many of its bytes are used: one more than it has where not all that was put found room. That number, and no
// Option, since the clause of `list_play` gives it out.
// No `fmt::Write`: what that says of `write!` tells nothing of the buffer after an `Err`, and `Puts` tells it for every text.
#[derive(Drop)]
pub struct Text<'a> {
    pub out: &'a mut [u8],
    pub used: usize,
}

// A number that is put as its text.
pub trait Numeral {
    ghost numeral: { Self → List ℕ };

    fn put_in(self, text: &mut Text)
        ensures { Puts text.old (numeral self) text.new };
}

impl Text<'_> {
    // Puts a text behind what is there, byte by byte: of one that is too long as many as find room are put, and `used` then tells it.
    pub fn put(&mut self, text: &[u8])
        ensures { Puts self.old text.now self.new }
    {
        for &c in text {
            if self.out.len() <= self.used {
                self.used = self.out.len() + 1;
                return;
            }
            self.out[self.used] = c;
            self.used += 1;
        }
    }

    // A word with a number behind it.
    pub fn put_numbered<N: Numeral>(&mut self, word: &[u8], n: N)
        ensures { Puts self.old (word.now ++ N.numeral n) self.new }
    {
        self.put(word);
        n.put_in(self);
    }

    // A byte as its two hexadecimal digits.
    pub fn put_byte(&mut self, byte: u8)
        ensures { Puts self.old (hex_text byte) self.new }
    {
        let mut digits = [0u8; 16];
        let count = io::hex(u64::from(byte), 2, &mut digits);
        self.put(&digits[..count]);
    }

    // Prints the bytes that are used.
    pub fn print(&self) {
        print(self.out, self.used);
    }
}

// The same of a buffer that is lent to be read alone.
pub fn print(out: &[u8], used: usize) {
    io::write_all(1, part(out, used));
}

// In decimal.
impl Numeral for u64 {
    ghost numeral = { decimal_text };

    fn put_in(self, text: &mut Text) {
        let mut digits = [0u8; 20];
        let count = io::decimal(self, &mut digits);
        text.put(&digits[..count]);
    }
}

impl Numeral for usize {
    ghost numeral = { decimal_text };

    fn put_in(self, text: &mut Text) {
        // u64 has no From<usize>.
        (self as u64).put_in(text);
    }
}

// The same, with a minus below 0.
impl Numeral for i32 {
    ghost numeral = { signed_text };

    fn put_in(self, text: &mut Text) {
        let digits = u64::from(self.unsigned_abs());
        if self < 0 {
            text.put_numbered(b"-", digits);
        } else {
            digits.put_in(text);
        }
    }
}
