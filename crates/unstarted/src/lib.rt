#![tactic(auto)]
// The routines that nobody starts. Document 02, Paper 1.
ghost use Rattle.std.specs.Prelude.{◌≡◌, ◌≤◌, length};
ghost use Rattle.std.specs.Result.{result_unwrap_or};
ghost use Rattle.numbers.specs.Buffers.{with_front};
ghost use Rattle.kinds.specs.Steps.{steps_in};
ghost use Rattle.verdicts.specs.Verdicts.{verdict_of};
ghost use Rattle.layout.specs.Layout.{most_routines};
ghost use Rattle.unstarted.specs.Unstarted as definition;
ghost use Rattle.unstarted.specs.Seen.{seen};

use directory::routine_steps;
use kinds::STEP_BYTES;
use layout::{MOST_ROUTINES, routines};
use reading::read_book;
use verdicts::{Refusal, Verdict, verdict_of};

// "13 start". A byte and no enum: the definition `with_step` compares a step's first byte with it, and no step is decoded.
const OP_START: u8 = 13;

// A flag for each number that a byte can hold.
const BYTE_LIMIT: usize = 256;

// What is answered: the verdict, and how many names are written. It is no Result, since `zulqenat_unstarted` gives it to C.
#[repr(C)]
#[derive(Clone, Copy)]
pub struct UnstartedNames {
    pub verdict: Verdict,
    pub count: usize,
}

// What a search has found so far: a flag for each number that a byte can hold, and the routines found, in the order in which they were
// found, so many: an array and how many of its entries count, since there is no heap. The two arrays are lent: in one struct they would be
// cleared at once, by a call of C's memset, and a program in C can take this without a C library.
#[derive(Drop)]
struct Search<'a> {
    flags: &'a mut [bool; BYTE_LIMIT],
    order: &'a mut [u8; MOST_ROUTINES],
    count: usize,
}

impl Search<'_> {
    // A routine is found. A full list takes no more.
    fn find(&mut self, routine: u8)
        ensures { seen self.new ≡ definition.with_found routine (seen self.old) }
    {
        let flag = usize::from(routine);
        if !self.flags[flag] && self.count < MOST_ROUTINES {
            self.flags[flag] = true;
            self.order[self.count] = routine;
            self.count += 1;
        }
    }

    // What some steps start is found.
    fn find_starts(&mut self, steps: &[u8])
        ensures { seen self.new ≡ definition.with_steps (steps_in steps.now) steps.now 0 (seen self.old) }
    {
        for step in steps.chunks_exact(STEP_BYTES) {
            if step[0] == OP_START {
                self.find(step[1]);
            }
        }
    }

    // What a routine starts is found.
    fn find_starts_of(&mut self, book: &[u8], routine: u8)
        ensures { seen self.new ≡ definition.with_starts book.now routine (seen self.old) }
    {
        self.find_starts(routine_steps(book, usize::from(routine)));
    }

    // From routine 0 on: finds it, what it starts, what those start, and so on. The steps of each are looked at once.
    fn look_through(&mut self, book: &[u8])
        ensures { seen self.new
            ≡ definition.found_from most_routines book.now 0 (definition.with_found 0 (seen self.old)) }
    {
        self.find(0);
        // By index: the list grows while it is gone through, so no iterator may borrow it.
        for at in 0..MOST_ROUTINES {
            if self.count <= at {
                break;
            }
            let routine = self.order[at];
            self.find_starts_of(book, routine);
        }
    }

    // Writes down those of the first routines that are not found, and answers how many they are.
    fn write_names(&self, all: usize, names: &mut [u8]) -> usize
        requires { (all ≤ most_routines) × (all ≤ length names.old) }
        ensures value { result ≡ length (definition.not_found self.now.flags.now all 0) }
        ensures names_after { names.new ≡ with_front (definition.not_found self.now.flags.now all 0) names.old }
    {
        // A loan of its own: the check covers no read of an array's element behind a `&` and a `&mut`.
        let flags = &*self.flags;
        // Counted by hand: only a name that is written takes a place of the buffer.
        let mut count: usize = 0;
        for routine in 0..all {
            if !flags[routine] {
                // `as`: below MOST_ROUTINES nothing is lost, and try_from would give an Err to handle.
                names[count] = routine as u8;
                count += 1;
            }
        }
        count
    }
}

// Writes the names of the routines that no chain of start steps leads to into a buffer, and answers how many they are.
fn write_unstarted(book: &[u8], names: &mut [u8]) -> Result<usize, Refusal>
    ensures { definition.names_for (verdict_of result) (result_unwrap_or result 0) names.new
        ≡ definition.names book.now names.old }
{
    read_book(book)?;
    let all = routines(book);
    if names.len() < all {
        return Err(Refusal::ShortNames);
    }
    let mut flags = [false; BYTE_LIMIT];
    let mut order = [0; MOST_ROUTINES];
    let mut found = Search {
        flags: &mut flags,
        order: &mut order,
        count: 0,
    };
    found.look_through(book);
    Ok(found.write_names(all, names))
}

// Names the routines that no chain of start steps leads to from routine 0: "12, after 1 to 7". A refusal leaves the buffer as lent.
pub fn unstarted(book: &[u8], names: &mut [u8]) -> UnstartedNames
    ensures { definition.names_for result.verdict result.count names.new
        ≡ definition.names book.now names.old }
{
    let named = write_unstarted(book, names);
    UnstartedNames {
        verdict: verdict_of(named),
        count: named.unwrap_or(0),
    }
}
