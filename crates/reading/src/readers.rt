// Reads blocks, and so decides nesting and pausing: the reader of a block calls those of an if and of a while, and they call it.
ghost use Rattle.std.specs.Prelude.{◌≡◌, ◌+◌, ◌*◌, ◌^◌, ◌≤◌, ◌<◌, length, take};
ghost use Rattle.kinds.specs.Steps.{step_bytes, steps_in};
ghost use Rattle.blocks.specs.Blocks.{closed, block_of, step_of, routine_of};
ghost use Rattle.reading.specs.Found.{view_by, stop_view, walk_of, Stopped, lowered};

use blocks::{Fault, Walked};
use forms::{Form, form_of};
use kinds::{Limits, STEP_BYTES, step_within};

// How deep blocks may nest.
const DEEPEST: usize = 16;

// What stops a block: the routine's end, or a marker that belongs to none of its steps.
#[derive(Clone, Copy)]
pub enum Stop {
    Beyond,
    AtElse,
    AtEnd,
}

// A block that no fault stops: where it stops, the lowest while so far whose body does not pause (the routine's step count where there is
// none), whether it pauses itself, and what stops it.
#[derive(Clone, Copy)]
pub struct Block {
    pub at: usize,
    pub lowest: usize,
    pub pauses: bool,
    pub stop: Stop,
}

// A step opened at `opening` whose last block is this: it is past where an end stops the block.
fn closed(block: Block, opening: usize, pauses: bool, lowest: usize) -> Result<Walked, Fault>
    requires { block.stop ≡ Stop.AtEnd → block.at + 1 < 2 ^ 64 }
    ensures { result ≡ closed (stop_view block.stop) opening block.at pauses lowest }
{
    match block.stop {
        Stop::Beyond => Err(Fault::Misnested(opening)),
        Stop::AtElse => Err(Fault::Misnested(block.at)),
        Stop::AtEnd => Ok(Walked {
            behind: block.at + 1,
            pauses,
            lowest,
        }),
    }
}

// The steps from a place up to a marker that belongs to none of them, or to the routine's end; `low` is the lowest endless while so far.
// `at` goes on behind each step with the blocks that it holds, so no range gives it. Steps and limits stay two, here and in the next two:
// the limits are made once for a book, and each routine is a part of its own.
#[cycle(read_blocks)]
fn read_block(
    steps: &[u8],
    limits: &Limits,
    depth: usize,
    from: usize,
    low: usize,
) -> Result<Block, Fault>
    requires { low ≤ steps_in steps.now }
    ensures result_value { walk_of result
        ≡ lowered low (block_of (view_by limits.now steps.now) (steps_in steps.now) depth from) }
    ensures stopped { Stopped (view_by limits.now steps.now) result }
{
    let count = steps.len() / STEP_BYTES;
    let mut at = from;
    let mut pauses = false;
    let mut lowest = low;
    while at < count {
        let Some(kind) = step_within(steps, limits, at) else {
            return Err(Fault::Unreadable(at));
        };
        let form = form_of(kind);
        match form {
            Form::Plain => {
                at += 1;
            }
            Form::Pausing => {
                pauses = true;
                at += 1;
            }
            Form::ElseMarker => {
                return Ok(Block {
                    at,
                    lowest,
                    pauses,
                    stop: Stop::AtElse,
                });
            }
            Form::EndMarker => {
                return Ok(Block {
                    at,
                    lowest,
                    pauses,
                    stop: Stop::AtEnd,
                });
            }
            Form::IfOpening => {
                let held = read_if(steps, limits, depth, at, lowest)?;
                pauses |= held.pauses;
                lowest = held.lowest;
                at = held.behind;
            }
            Form::WhileOpening => {
                let held = read_while(steps, limits, depth, at, lowest)?;
                pauses |= held.pauses;
                lowest = held.lowest;
                at = held.behind;
            }
        }
    }
    Ok(Block {
        at,
        lowest,
        pauses,
        stop: Stop::Beyond,
    })
}

// The if at `at`, with one or two blocks; `low` is the lowest endless while so far.
#[cycle(read_blocks)]
fn read_if(
    steps: &[u8],
    limits: &Limits,
    depth: usize,
    at: usize,
    low: usize,
) -> Result<Walked, Fault>
    requires at_bound { at < steps_in steps.now }
    requires low_bound { low ≤ steps_in steps.now }
    ensures { result
        ≡ lowered low (step_of (view_by limits.now steps.now) (steps_in steps.now) depth Form.IfOpening at) }
{
    if depth == 0 {
        return Err(Fault::Misnested(at));
    }
    let first = read_block(steps, limits, depth - 1, at + 1, low)?;
    let Stop::AtElse = first.stop else {
        return closed(first, at, false, first.lowest);
    };
    let second = read_block(steps, limits, depth - 1, first.at + 1, first.lowest)?;
    closed(second, at, first.pauses && second.pauses, second.lowest)
}

// The while at `at`, with its body; `low` is the lowest endless while so far.
#[cycle(read_blocks)]
fn read_while(
    steps: &[u8],
    limits: &Limits,
    depth: usize,
    at: usize,
    low: usize,
) -> Result<Walked, Fault>
    requires at_bound { at < steps_in steps.now }
    requires low_bound { low ≤ steps_in steps.now }
    ensures { result
        ≡ lowered low (step_of (view_by limits.now steps.now) (steps_in steps.now) depth Form.WhileOpening at) }
{
    if depth == 0 {
        return Err(Fault::Misnested(at));
    }
    let body = read_block(steps, limits, depth - 1, at + 1, low)?;
    let lowest = if body.pauses {
        body.lowest
    } else {
        low.min(at)
    };
    closed(body, at, false, lowest)
}

// The routine of so many steps that begins the part of the book that is lent here.
pub fn read_routine(part: &[u8], limits: &Limits, count: usize) -> Result<Walked, Fault>
    requires { step_bytes * count ≤ length part.now }
    ensures { result ≡ routine_of (view_by limits.now (take (step_bytes * count) part.now)) count }
{
    let end = STEP_BYTES * count;
    let block = read_block(&part[..end], limits, DEEPEST, 0, count)?;
    match block.stop {
        Stop::Beyond => Ok(Walked {
            behind: block.at,
            pauses: block.pauses,
            lowest: block.lowest,
        }),
        _ => Err(Fault::Misnested(block.at)),
    }
}
