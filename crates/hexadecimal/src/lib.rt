#![tactic(auto)]
// The bytes that words of hexadecimal digits stand for.
ghost use Rattle.std.specs.Prelude.{◌≡◌, ◌/◌, ◌≤◌, length, is_some};
ghost use Rattle.std.specs.List.{list_all};
ghost use Rattle.digits.specs.Digits.{digit_of};
ghost use Rattle.hexadecimal.specs.Hex.{longest, is_hex, written_from, bytes_in, written_in};

use digits::digit;
use words::is;

// The most bytes that a word may stand for.
pub const LONGEST: usize = 16384;

// Whether each byte of a word is a hexadecimal digit.
fn has_digits_only(word: &[u8]) -> bool
    ensures { result ≡ list_all (λ c. is_some (digit_of c)) word.now }
{
    word.iter().all(|c| digit(*c).is_some())
}

// Whether a word stands for bytes, two hexadecimal digits each.
#[tactic(auto, unfolding(crate::specs::Hex::is_hex))]
fn is_hex(word: &[u8]) -> bool
    ensures { result ≡ is_hex word.now }
{
    !word.is_empty() && word.len() % 2 == 0 && word.len() / 2 <= LONGEST && has_digits_only(word)
}

// Puts the bytes whose digits are a word into `bytes`, two digits each.
fn fill(word: &[u8], bytes: &mut [u8; LONGEST])
    requires { length word.now / 2 ≤ longest }
    ensures { bytes.new ≡ written_from word.now (length word.now / 2) bytes.old 0 }
{
    let (pairs, _) = word.as_chunks::<2>();
    for (count, [high, low]) in pairs.iter().enumerate() {
        bytes[count] = digit(*high).unwrap_or(0) * 16 + digit(*low).unwrap_or(0);
    }
}

// How many bytes a word of their digits stands for, two each, or `-` for none; none for any other word. They are put into `bytes`, which
// any other word leaves as lent.
#[tactic(auto, unfolding(crate::specs::Hex::bytes_in, crate::specs::Hex::written_in))]
pub fn read_bytes(word: &[u8], bytes: &mut [u8; LONGEST]) -> Option<usize>
    ensures count { result ≡ bytes_in word.now }
    ensures written { bytes.new ≡ written_in word.now bytes.old }
{
    if is(word, b"-") {
        return Some(0);
    }
    if is_hex(word) {
        fill(word, bytes);
        Some(word.len() / 2)
    } else {
        None
    }
}
