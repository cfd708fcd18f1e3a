#![tactic(auto)]
// The lines of a listing, put one behind another into a text. Document 01, "Set plays".
ghost use Rattle.texts.specs.Held.{Puts};
ghost use Rattle.listing.specs.Listing.{round_line, mark_line, mark_lines, round_lines, refusal_line};

use texts::Text;
use verdicts::Verdict;

// Two numbers to a mark.
pub const NUMBERS_PER_MARK: usize = 2;

// The most bytes that the line of a round has, and that of a mark: their words, and 20 digits for a number, with a minus 21.
pub const LONGEST_ROUND_LINE: usize = 82;

pub const LONGEST_MARK_LINE: usize = 49;

fn put_round_line(text: &mut Text, number: usize, passes: usize, marks: usize)
    ensures { Puts text.old (round_line number passes marks) text.new }
{
    text.put_numbered(b"round ", number);
    text.put_numbered(b" passes ", passes);
    text.put_numbered(b" marks ", marks);
    text.put(b"\n");
}

fn put_mark(text: &mut Text, routine: i32, number: i32)
    ensures { Puts text.old (mark_line routine number) text.new }
{
    text.put_numbered(b"mark ", routine);
    text.put_numbered(b" ", number);
    text.put(b"\n");
}

// A line for each mark, of which each is two numbers; a last number without its second is left out.
fn put_marks(text: &mut Text, marks: &[i32])
    ensures { Puts text.old (mark_lines marks.now) text.new }
{
    let (pairs, _) = marks.as_chunks::<NUMBERS_PER_MARK>();
    for &[routine, number] in pairs {
        put_mark(text, routine, number);
    }
}

// The lines of a round: its number, its passes and how many marks it has, and then its marks.
pub fn put_round(text: &mut Text, number: usize, passes: usize, marks: &[i32])
    ensures { Puts text.old (round_lines number passes marks.now) text.new }
{
    put_round_line(text, number, passes, marks.len() / NUMBERS_PER_MARK);
    put_marks(text, marks);
}

// The line of a refusal.
pub fn put_refusal(text: &mut Text, verdict: Verdict)
    ensures { Puts text.old (refusal_line verdict) text.new }
{
    text.put_numbered(b"refused ", u64::from(verdict.number));
    text.put_numbered(b" ", u64::from(verdict.place));
    text.put(b"\n");
}
