// 3 and 4 of the numbers: whether numbers are below the modulus, and the fault of a value
// line's values.
#![tactic(auto)]

ghost use Rattle.std.specs.Prelude.{◌≡◌, nat_lt};
ghost use Rattle.std.specs.List.{list_all};
ghost use Rattle.field.specs.Moduli.{modulus_of};
ghost use Rattle.memory.specs.Bytes.{all_below};
ghost use Rattle.memory.specs.File.{values_fault};
ghost use Rattle.memory.specs.Faults.{fault_of};

use field::moduli::Modulus;
use memory::Values;
use memory::faults::Fault;
use rules::sizes;

// Whether each number is less than q.
fn each_less(numbers: &[u64], q: u64) -> bool
    ensures { result ≡ list_all (λ x. nat_lt x q) numbers.now }
{
    numbers.iter().all(|x| *x < q)
}

// Not 3: "a number is p or more", of numbers: those of a value line, or those of a row.
pub fn below<const N: usize>(k: Modulus, numbers: [u64; N]) -> bool
    ensures { result ≡ all_below (modulus_of k) numbers.entry }
{
    each_less(&numbers, k.modulus())
}

// The fault of the values of a value line.
#[tactic(auto, unfolding(memory::specs::File::values_fault))]
pub fn fault(k: Modulus, values: Values) -> Result<(), Fault>
    ensures { fault_of result ≡ values_fault (modulus_of k) values.memory values.size values.count values.challenge }
{
    let size = values.size as u64;
    let count = values.count as u64;
    let ch = values.challenge;
    if !below(k, [size, count, ch.r, ch.a, ch.b, ch.c]) {
        return Err(Fault::TooLarge);
    }
    if !sizes::allowed(values.memory, size, count) {
        return Err(Fault::NotAllowed);
    }
    Ok(())
}
