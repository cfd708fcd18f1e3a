#![tactic(auto)]
// The directory of a book, refusal 4, and the steps of a routine. Document 01, "The book".
ghost use Rattle.std.specs.Prelude.{◌≡◌, ◌+◌, ◌*◌, ◌<◌, ◌≤◌};
ghost use Rattle.numbers.specs.Numbers.{half_at, half_limit};
ghost use Rattle.verdicts.specs.Verdicts.{verdict_of};
ghost use Rattle.layout.specs.Layout.{header_bytes, entry_bytes};
ghost use Rattle.directory.specs.Directory.{first_step, step_count, directory_verdict, routine_steps, routine_steps_from};

use kinds::STEP_BYTES;
use layout::{ENTRY_BYTES, HEADER_BYTES, routines, steps, steps_from};
use numbers::half_at;
use verdicts::Refusal;

// A number of a routine's entry, so many bytes behind the entry's start; 0 where the bytes are not there.
fn entry(book: &[u8], routine: usize, behind: usize) -> usize
    requires { behind ≤ 2 }
    ensures { (result ≡ half_at book.now (header_bytes + behind + entry_bytes * routine)) × (result < half_limit) }
{
    if book.len() / ENTRY_BYTES <= routine {
        return 0;
    }
    half_at(book, HEADER_BYTES + behind + ENTRY_BYTES * routine)
}

// The first step of a routine, by the directory; 0 where the bytes are not there.
pub fn first_step(book: &[u8], routine: usize) -> usize
    ensures { (result ≡ first_step book.now routine) × (result < half_limit) }
{
    entry(book, routine, 0)
}

// How many steps a routine has, by the directory; 0 where the bytes are not there.
pub fn step_count(book: &[u8], routine: usize) -> usize
    ensures { (result ≡ step_count book.now routine) × (result < half_limit) }
{
    entry(book, routine, 2)
}

// Refusal 4.
pub fn check_directory(book: &[u8]) -> Result<(), Refusal>
    ensures { verdict_of result ≡ directory_verdict book.now }
{
    // By `as`: each number has 16 bits, so that nothing is lost, and try_from would give an Err to handle.
    let all = routines(book);
    let mut sum: usize = 0;
    for routine in 0..all {
        if first_step(book, routine) != sum {
            return Err(Refusal::WrongEntry(routine as u32));
        }
        sum += step_count(book, routine);
    }
    if sum != steps(book) {
        return Err(Refusal::WrongEntry(all as u32));
    }
    Ok(())
}

// The steps of a routine where the directory says, without reading the book again; what is not there is left out. For a
// routine that begins past the book's end it gives the empty part at the book's start.
// It takes ranges, and not `get`, whose contract says nothing of the memory that the clause `place` names.
#[tactic(auto, unfolding(crate::specs::Directory::routine_part, crate::specs::Directory::routine_steps_from))]
pub fn routine_steps(book: &[u8], routine: usize) -> &[u8]
    ensures bytes { result.now ≡ routine_steps book.now routine }
    ensures place { (result.ref_ptr.0 ≡ book.entry.ref_ptr.0)
        × (result.ref_ptr.1 ≡ book.entry.ref_ptr.1 + routine_steps_from book.now routine) }
{
    let from = steps_from(book) + STEP_BYTES * first_step(book, routine);
    if book.len() < from {
        return &book[..0];
    }
    let rest = &book[from..];
    let size = STEP_BYTES * step_count(book, routine);
    &rest[..size.min(rest.len())]
}
