#![tactic(auto)]
// Where the partner of an opening step is.
ghost use Rattle.std.specs.Prelude.{◌≡◌, ◌-◌};
ghost use Rattle.kinds.specs.Steps.{steps_in};
ghost use Rattle.partners.specs.Partners.{partner_of};

use kinds::STEP_BYTES;

// The ops of the steps that hold blocks, and of their markers. Bytes and no enum: the search compares a book's bytes with them and decodes
// no step, which costs more at each step passed.
pub const OP_IF: u8 = 17;

pub const OP_ELSE: u8 = 18;

pub const OP_WHILE: u8 = 19;

pub const OP_END: u8 = 20;

// The place of the first marker from `first` on that stands in no inner pair: the partner of an opening step,
// or of an else, just before `first`. Where there is none, the count of steps, or `first` if that lies behind them.
// A labelled scan that yields the place by break, as document 01 asks.
pub fn partner(steps: &[u8], first: usize) -> usize
    ensures { result ≡ partner_of steps.now (steps_in steps.now - first) 0 first }
{
    let count = steps.len() / STEP_BYTES;
    let mut depth: usize = 0;
    'scan: {
        for at in first..count {
            match steps[at * STEP_BYTES] {
                OP_IF | OP_WHILE => {
                    depth += 1;
                }
                OP_ELSE | OP_END if depth == 0 => {
                    break 'scan at;
                }
                OP_END => {
                    depth -= 1;
                }
                _ => {}
            }
        }
        first.max(count)
    }
}
