// Where the steps that hold blocks lead, and their markers.
ghost use Rattle.std.specs.Prelude.{◌≡◌, ◌+◌, ◌<◌, ◌≤◌, eqb, if◌then◌else◌};
ghost use Rattle.numbers.specs.Numbers.{relation_of};
ghost use Rattle.kinds.specs.Steps.{steps_in};
ghost use Rattle.round.specs.Jumps.{past_partner, opening_before, from_end};

use kinds::STEP_BYTES;
use numbers::relation;
use partners::{OP_END, OP_IF, OP_WHILE, partner};
use round::{Act, Effect};

// The place behind the partner of an opening or an else. That the step is there stays a clause, here and below: `tick` has just tested it.
#[tactic(auto, using(crate::proofs::Searches::partner_near), unfolding(round::specs::Jumps::past_partner))]
pub fn past_partner(steps: &[u8], place: usize) -> usize
    requires { place < steps_in steps.now }
    ensures { result ≡ past_partner steps.now place }
{
    partner(steps, place + 1) + 1
}

// The opening that is not closed before a place.
#[tactic(auto, using(crate::proofs::Searches::opening_on))]
fn opening_before(steps: &[u8], place: usize) -> usize
    requires { place < steps_in steps.now }
    ensures { (result ≡ opening_before steps.now 0 place) × (result ≤ place) }
{
    let mut depth: usize = 0;
    // By place, which is the answer: chunks of the steps would have to be numbered, cut at `place` and turned round for it.
    for at in (0..place).rev() {
        match steps[at * STEP_BYTES] {
            OP_END => depth += 1,
            OP_IF | OP_WHILE => {
                if depth == 0 {
                    return at;
                }
                depth -= 1;
            }
            _ => {}
        }
    }
    0
}

// Where an end leads: to its while's test, or past its if.
#[tactic(auto, unfolding(round::specs::Jumps::from_end))]
pub fn from_end(steps: &[u8], place: usize) -> usize
    requires { place < steps_in steps.now }
    ensures { result ≡ from_end steps.now place }
{
    let opening = opening_before(steps, place);
    if steps[opening * STEP_BYTES] == OP_WHILE {
        opening
    } else {
        place + 1
    }
}

// An if or a while that holds a counter's content v against n: into its block, or past it.
pub fn tests(steps: &[u8], place: usize, by: usize, v: i32, n: i32) -> Act
    requires { place < steps_in steps.now }
    ensures { result ≡ Act.Goes
        (if eqb (relation_of by v n) 1 then place + 1 else past_partner steps.now place) Effect.Nothing }
{
    if relation(by, v, n) == 1 {
        Act::Goes(place + 1, Effect::Nothing)
    } else {
        Act::Goes(past_partner(steps, place), Effect::Nothing)
    }
}
