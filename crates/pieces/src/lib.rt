#![tactic(auto)]
// A text that is read in pieces. A piece ends anywhere: its whole lines come first, and the rest belongs to the next piece.
ghost use Rattle.std.specs.Prelude.{◌≡◌, ◌-◌, ◌≤◌, ◌==◌, length, reverse};
ghost use Rattle.std.specs.List.{position};
ghost use Rattle.pieces.specs.Pieces.{line_end, whole_lines, to_front};

// How many bytes stand behind the last end of a line, where there is one.
fn behind_lines(text: &[u8]) -> Option<usize>
    ensures { result ≡ position (λ b. b == line_end) (reverse text.now) }
{
    text.iter().rev().position(|b| *b == b'\n')
}

// How many bytes the whole lines of a text have, their ends included.
pub fn whole_lines(text: &[u8]) -> usize
    ensures { (result ≡ whole_lines text.now) × (result ≤ length text.now) }
{
    text.len() - behind_lines(text).unwrap_or(text.len())
}

// Moves the bytes from a place on to the front, and answers how many they are.
pub fn keep_from(text: &mut [u8], from: usize) -> usize
    ensures kept { result ≡ length text.old - from }
    ensures moved { text.new ≡ to_front text.old from }
{
    if text.len() < from {
        return 0;
    }
    text.copy_within(from.., 0);
    text.len() - from
}
