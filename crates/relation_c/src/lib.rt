#![tactic(auto)]
// The call by which a test sees how the relation test is compiled.
ghost use Rattle.std.specs.Prelude.{◌≡◌};
ghost use Rattle.numbers.specs.Numbers.{relation_of};

// A counter's content v against n: the contract is that of `numbers::relation`.
#[unsafe(no_mangle)]
pub extern "C" fn zulqenat_relation(relation: usize, v: i32, n: i32) -> usize
    ensures { result ≡ relation_of relation v n }
{
    numbers::relation(relation, v, n)
}
