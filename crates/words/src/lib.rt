#![tactic(auto)]
// The words of a line of text.
ghost use Rattle.std.specs.Prelude.{◌≡◌, ◌≤◌, ◌==◌, max, length, take};
ghost use Rattle.std.specs.List.{position};
ghost use Rattle.words.specs.Words.{found_at, first_of, rest_of, is_same, place_of};

// The place of the first `c`, where there is one.
fn place(text: &[u8], c: u8) -> Option<usize>
    ensures { result ≡ position (λ b. b == c) text.now }
{
    text.iter().position(|b| *b == c)
}

// The place of the first `c` from `from` on; where there is none, the text's length, or `from` if that is further.
pub fn find(text: &[u8], from: usize, c: u8) -> usize
    ensures { (result ≡ found_at text.now from c) × (from ≤ result) × (result ≤ max from (length text.now)) }
{
    if text.len() < from {
        return from;
    }
    from + place(&text[from..], c).unwrap_or(text.len() - from)
}

// What stands before the first space.
pub fn first(text: &[u8]) -> &[u8]
    ensures { result.now ≡ first_of text.now }
{
    let end = find(text, 0, b' ');
    &text[..end]
}

// What stands behind the first space; nothing where there is none.
pub fn rest(text: &[u8]) -> &[u8]
    ensures { result.now ≡ rest_of text.now }
{
    let end = find(text, 0, b' ');
    text.get(end + 1..).unwrap_or(&[])
}

// Whether two words have the same bytes: `==` by a public name, which stays.
#[tactic(auto, unfolding(crate::specs::Words::is_same))]
pub fn is(word: &[u8], name: &[u8]) -> bool
    ensures { result ≡ is_same word.now name.now }
{
    word == name
}

// The number of a word in a list of names with a space between them, from 0 on; the number of names for any other word, as
// the definition `place_of` has it: no Option, since what a public function answers may not change.
pub fn place_in(names: &[u8], word: &[u8]) -> usize
    ensures { result ≡ place_of names.now word.now }
{
    // A `while`, since `split` would give one name more behind a last space, and one where there are none.
    let mut left = names;
    let mut count: usize = 0;
    while !left.is_empty() {
        if is(first(left), word) {
            return count;
        }
        count += 1;
        left = rest(left);
    }
    count
}

// The first bytes, so many or all that there are.
pub fn part(bytes: &[u8], count: usize) -> &[u8]
    ensures { result.now ≡ take count bytes.now }
{
    bytes.get(..count).unwrap_or(bytes)
}
