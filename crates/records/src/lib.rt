// The factors of records, and what stands in them: places of rows, ages. "A triple (x, y, z) gives
// the factor r − (a·x + b·y + c·z); a pair gives r − (a·x + b·y)."
#![tactic(auto)]

use field::moduli::Modulus;
use memory::Challenge;

pub mod ages;
pub mod places;

ghost use Rattle.std.specs.Prelude.{◌≡◌};
ghost use Rattle.algebra.specs.Modulo.{times};
ghost use Rattle.field.specs.Moduli.{modulus_of};
ghost use Rattle.memory.specs.Equations.{triple, pair, factor};

// A product times the factor of a triple.
#[tactic(auto, unfolding(field::specs::Field::mul_of, field::specs::Field::triple_of, memory::specs::Equations::triple, memory::specs::Equations::factor))]
pub fn by_triple(k: Modulus, ch: Challenge, product: u64, x: u64, y: u64, z: u64) -> u64
    ensures { result ≡ times (modulus_of k) product (factor (modulus_of k) ch (triple x y z)) }
{
    k.by_triple(product, ch.r, ch.a, ch.b, ch.c, x, y, z)
}

// A product times the factor of a pair, with one multiplication fewer than that of a triple.
#[tactic(auto, unfolding(field::specs::Field::mul_of), using(crate::proofs::Reduced::pair_factor))]
pub fn by_pair(k: Modulus, ch: Challenge, product: u64, x: u64, y: u64) -> u64
    ensures { result ≡ times (modulus_of k) product (factor (modulus_of k) ch (pair x y)) }
{
    k.by_pair(product, ch.r, ch.a, ch.b, x, y)
}
