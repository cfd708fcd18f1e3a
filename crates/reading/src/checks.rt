// Refusals 5 to 7: the blocks of the book, routine by routine, and every step by itself.
ghost use Rattle.std.specs.Prelude.{◌≡◌, ◌+◌, ◌<◌, length, IfOk};
ghost use Rattle.numbers.specs.Numbers.{half_limit, half_at};
ghost use Rattle.kinds.specs.Limits.{limits_of};
ghost use Rattle.verdicts.specs.Verdicts.{accepted, verdict_of, ◌or_else◌};
ghost use Rattle.layout.specs.Layout.{routines_of, counts_of, layout_verdict};
ghost use Rattle.directory.specs.Directory.{directory_verdict};
ghost use Rattle.reading.specs.Found.{unpaused_verdict};
ghost use Rattle.book.specs.Book.{steps_verdict, nesting_verdict, pausing_verdict, nesting_at, pausing_at};

use crate::readers::read_routine;
use blocks::Fault;
use directory::check_directory;
use kinds::{Limits, STEP_BYTES, step_within};
use layout::{ENTRY_BYTES, HEADER_BYTES, check_layout, limits_in, routines, steps, steps_from};
use verdicts::Refusal;

// A book whose header and directory are right.
#[derive(Clone, Copy)]
pub struct Laid<'a> {
    pub book: &'a [u8],
    pub ghost layout: { layout_verdict book.now ≡ accepted },
    pub ghost directory: { directory_verdict book.now ≡ accepted },
}

// A number of the directory, whose two bytes are there: without the tests of the length that `directory`
// makes, since the clause has what they test.
fn entry(book: &[u8], at: usize) -> usize
    requires { at + 1 < length book.now }
    ensures { (result ≡ half_at book.now at) × (result < half_limit) }
{
    numbers::half(book[at], book[at + 1])
}

// A place of a routine, numbered from the book's first step. `as`, here and in check_steps, is proved to lose nothing; try_from would
// give an Err to handle.
fn numbered(first: usize, at: usize) -> u32
    requires { first + at < half_limit + half_limit }
    ensures { result ≡ first + at }
{
    (first + at) as u32
}

impl<'a> Laid<'a> {
    // Refusals 1 to 4.
    pub fn of(book: &'a [u8]) -> Result<Laid<'a>, Refusal>
        ensures verdict { verdict_of result ≡ (layout_verdict book.now or_else directory_verdict book.now) }
        ensures same { IfOk result (λ laid. laid.book.now ≡ book.now) }
    {
        check_layout(book)?;
        check_directory(book)?;
        Ok(Laid { book })
    }

    // Refusal 5, over the whole book. Only a book that nests wrongly needs it: in any other the readers of blocks have met the first wrong
    // step.
    pub fn check_steps(&self) -> Result<(), Refusal>
        ensures { verdict_of result ≡ steps_verdict self.now.book.now }
    {
        let book = self.book;
        let limits = limits_in(book);
        let all = steps(book);
        let from = steps_from(book);
        let part = &book[from..];
        for at in 0..all {
            let Some(_) = step_within(part, &limits, at) else {
                return Err(Refusal::WrongStep(at as u32));
            };
        }
        Ok(())
    }

    // Refusal 6 for one routine, and the readers' own 5, read from the part of the book that begins at its first step. Where there is
    // neither, the lowest while without a pause, for refusal 7.
    fn check_routine(&self, limits: &Limits, routine: usize) -> Result<Option<u32>, Refusal>
        requires limits_value { limits.now ≡ limits_of (counts_of self.now.book.now) }
        requires routine_bound { routine < routines_of self.now.book.now }
        ensures nesting { verdict_of result ≡ nesting_at self.now.book.now routine }
        ensures pausing { IfOk result (λ unpaused. unpaused_verdict unpaused ≡ pausing_at self.now.book.now routine) }
    {
        let book = self.book;
        let first = entry(book, HEADER_BYTES + ENTRY_BYTES * routine);
        let count = entry(book, HEADER_BYTES + 2 + ENTRY_BYTES * routine);
        let from = steps_from(book) + STEP_BYTES * first;
        match read_routine(&book[from..], limits, count) {
            Err(Fault::Unreadable(at)) => Err(Refusal::WrongStep(numbered(first, at))),
            Err(Fault::Misnested(at)) => Err(Refusal::WrongNesting(numbered(first, at))),
            Ok(walked) if walked.lowest < count => Ok(Some(numbered(first, walked.lowest))),
            Ok(_) => Ok(None),
        }
    }

    // Refusals 6 and 7, and the readers' own 5, over the whole book: 5 and 6 are told at once, the first 7 only where no routine has
    // either.
    pub fn check_blocks(&self) -> Result<(), Refusal>
        ensures { verdict_of result ≡ (nesting_verdict self.now.book.now or_else pausing_verdict self.now.book.now) }
    {
        let limits = limits_in(self.book);
        let mut unpaused = None;
        for routine in 0..routines(self.book) {
            let found = self.check_routine(&limits, routine)?;
            unpaused = unpaused.or(found);
        }
        match unpaused {
            Some(step) => Err(Refusal::WithoutPause(step)),
            None => Ok(()),
        }
    }
}
