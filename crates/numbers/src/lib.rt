#![tactic(auto)]
// The numbers of a book: little-endian, of 16 bits and of 32 in two's complement.
ghost use Rattle.std.specs.Prelude.{◌≡◌, ◌<◌, ◌≤◌, eqb, pos, ◌+ℤ◌, if◌then◌else◌};
ghost use Rattle.numbers.specs.Numbers.{half_limit, word_limit, half_of, half_at, number_of, is_within, count_of, sum_of, relation_of};

// The ends of n.
pub const LOWEST: i32 = -1_000_000;

pub const HIGHEST: i32 = 1_000_000;

// The ends of a counter: document 01 gives them in a sentence of their own, so that they are not those of n under another name.
pub const LOWEST_COUNTER: i32 = -1_000_000;

pub const HIGHEST_COUNTER: i32 = 1_000_000;

// How far below 0 the lowest number of 32 bits lies.
const RAISE: i64 = 1 << 31;

// The highest bit of a usize: a number divided by it gives 1 where it is that or more, and 0 where it is less.
const HIGHEST_BIT: usize = 1 << 63;

// What an addition to a counter gives: the sum, and what was cut off, the distance between the true sum and the one given.
#[derive(Clone, Copy)]
pub struct Sum {
    pub sum: i32,
    pub lost: u32,
}

// A number of 16 bits, from its low and its high byte: from_le_bytes, with the promise that the definition `half_of` states.
pub fn half(low: u8, high: u8) -> usize
    ensures { (result ≡ half_of low high) × (result < half_limit) }
{
    usize::from(u16::from_le_bytes([low, high]))
}

// The number of 16 bits at a place of a slice; bytes past the end count as 0.
pub fn half_at(s: &[u8], at: usize) -> usize
    ensures { (result ≡ half_at s.now at) × (result < half_limit) }
{
    match s.get(at..) {
        Some([low, high, ..]) => half(*low, *high),
        Some([low]) => half(*low, 0),
        _ => 0,
    }
}

// The number of 32 bits, in two's complement, whose bytes are these, lowest first.
pub fn number(a: u8, b: u8, c: u8, d: u8) -> i32
    ensures { result ≡ number_of a b c d }
{
    i32::from_le_bytes([a, b, c, d])
}

// Whether n lies between two ends, both included.
pub fn is_within(n: i32, low: i32, high: i32) -> bool
    ensures { result ≡ is_within n low high }
{
    (low..=high).contains(&n)
}

// How many times a step with the number n counts: none where n is 0 or less.
pub fn count(n: i32) -> usize
    ensures { result ≡ count_of n }
{
    usize::try_from(n).unwrap_or(0)
}

// A counter's content v with n added, kept between the counter's ends: 64 bits hold the sum of any two numbers of 32.
// `as` is proved to lose nothing; try_from would give an Err to handle.
pub fn sum_of(v: i32, n: i32) -> Sum
    ensures { result ≡ sum_of v n }
{
    let sum = i64::from(v) + i64::from(n);
    let kept = sum.clamp(i64::from(LOWEST_COUNTER), i64::from(HIGHEST_COUNTER));
    Sum {
        sum: kept as i32,
        lost: sum.abs_diff(kept) as u32,
    }
}

// A number raised by 2^31, so that the lowest is 0 and the order stays. Arithmetic, here and in the two functions below, where one would
// write `cmp` and a match on its Ordering: tests/branchless.sh holds the compiled relation to no branch. `as` for the same
// reason: try_from would branch.
fn raised(n: i32) -> usize
    ensures { (pos result ≡ n +ℤ pos 2147483648) × (result < word_limit) }
{
    (i64::from(n) + RAISE) as usize
}

// One of two numbers, each 1 or 0: the first where the weight is 1, and the second where it is 0.
fn weighed(weight: usize, first: usize, second: usize) -> usize
    requires { (weight ≤ 1) × (first ≤ 1) × (second ≤ 1) }
    ensures { (result ≡ (if eqb weight 1 then first else second)) × (result ≤ 1) }
{
    weight * first + (1 - weight) * second
}

// A counter's content v against n, by 0 equal, 1 less, 2 greater: 1 where the relation holds, and 0. By arithmetic alone, so that compiled
// code has no branch: the difference is HIGHEST_BIT where v and n are equal, and its quotients tell less, equal and greater, as 1 or 0. The
// relation's number gives the weights, of which `from_two` is 1 for 2 and above. It is a number and no enum: C calls it by that number
// (`zulqenat_relation`), and `relation_holds` speaks of every number.
pub fn relation(relation: usize, v: i32, n: i32) -> usize
    ensures { result ≡ relation_of relation v n }
{
    let difference = raised(v) + HIGHEST_BIT - raised(n);
    let not_less = difference / HIGHEST_BIT;
    let greater = (difference - 1) / HIGHEST_BIT;
    let less = 1 - not_less;
    let equal = not_less - greater;
    let from_two = (relation / 2 + (HIGHEST_BIT - 1)) / HIGHEST_BIT;
    weighed(from_two, greater, weighed(relation % 2, less, equal))
}
