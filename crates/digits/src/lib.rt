#![tactic(auto)]
// The digits of a word, and the numbers that words of them stand for.
ghost use Rattle.std.specs.Prelude.{◌≡◌, ◌<◌, IfSome};
ghost use Rattle.digits.specs.Digits.{digit_of, with_digit, decimal_of, signed_of, pair_in};

use words::{first, rest};

// How far below 0 a signed number of 32 bits goes.
const LOWEST: u32 = 2147483648;

// The value of a hexadecimal digit; none of any other byte.
pub fn digit(c: u8) -> Option<u8>
    ensures value { result ≡ digit_of c }
    ensures below { IfSome result (λ d. d < 16) }
{
    match c {
        b'0'..=b'9' => Some(c - b'0'),
        b'a'..=b'f' => Some(c - b'a' + 10),
        _ => None,
    }
}

// A value with one decimal digit more, where the byte is such a digit and the number still has at most 32 bits.
fn with_digit(value: u32, c: u8) -> Option<u32>
    ensures { result ≡ with_digit value (digit_of c) }
{
    let d = digit(c)?;
    if 9 < d {
        return None;
    }
    u32::try_from(u64::from(value) * 10 + u64::from(d)).ok()
}

// The number of 32 bits that a word of decimal digits stands for.
pub fn decimal(word: &[u8]) -> Option<u32>
    ensures { result ≡ decimal_of word.now }
{
    if word.is_empty() {
        return None;
    }
    let mut value = 0;
    for &c in word {
        value = with_digit(value, c)?;
    }
    Some(value)
}

// A signed number, as its two's complement.
#[tactic(auto, unfolding(crate::specs::Digits::signed_of))]
fn signed(word: &[u8]) -> Option<u32>
    ensures { result ≡ signed_of word.now }
{
    if let [b'-', digits @ ..] = word {
        let below = decimal(digits)?;
        (below <= LOWEST).then_some(below.wrapping_neg())
    } else {
        decimal(word).filter(|value| *value < LOWEST)
    }
}

// Two numbers with a space between them; the second may be negative, where that is allowed.
#[tactic(auto, unfolding(crate::specs::Digits::pair_in))]
pub fn read_pair(text: &[u8], negative: bool) -> Option<(u32, u32)>
    ensures { result ≡ pair_in text.now negative }
{
    let one = decimal(first(text))?;
    let last = rest(text);
    let two = if negative {
        signed(last)?
    } else {
        decimal(last)?
    };
    Some((one, two))
}
