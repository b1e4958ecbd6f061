// The modulus that a check computes with, and its operations. Elements are u64, and every public
// operation takes any u64, reduced or not. 2³¹ − 1 and 2⁶¹ − 1 have a field type each, and a small
// number has `SmallModulus`.
ghost use Rattle.std.specs.Prelude.{◌≡◌, ◌%◌};
ghost use Rattle.algebra.specs.Modulo.{Same};
ghost use Rattle.field.specs.Field.{p, add_of, sub_of, mul_of, triple_of, pair_of, horner_of};
ghost use Rattle.field.specs.Moduli.{modulus_of};

use crate::Field;
use crate::prime::PrimeField;
use crate::small::SmallModulus;
use crate::wide::Field61;

// What a check computes modulo: 2³¹ − 1, 2⁶¹ − 1, or a small number. Each operation matches on it:
// a trait over the three would have the same calls, and this match besides.
#[derive(Clone, Copy)]
pub enum Modulus {
    M31,
    M61,
    Small(u8),
}

// What 32 bits hold is below it,
const WORD: u64 = 0x1_0000_0000;

// and what 31 bits hold is below this.
const HALF: u64 = 0x8000_0000;

// A number of 32 bits that is the same as x modulo 2³¹ − 1: x itself, where it has no more.
fn word(x: u64) -> u32
    ensures { Same p result x }
{
    if x < WORD { x as u32 } else { Field::reduce(x) }
}

#[tactic(auto, using(crate::proofs::Congruence::congruence), unfolding(crate::specs::Moduli::modulus_of, crate::specs::Field::add_of, crate::specs::Field::sub_of, crate::specs::Field::mul_of, crate::specs::Field::horner_of))]
impl Modulus {
    // The number that a check computes modulo.
    pub fn modulus(self) -> u64
        ensures { result ≡ modulus_of self }
    {
        match self {
            Modulus::M31 => Field::modulus() as u64,
            Modulus::M61 => Field61::modulus(),
            Modulus::Small(q) => SmallModulus::new(q).modulus(),
        }
    }

    // x modulo it.
    pub fn reduce(self, x: u64) -> u64
        ensures { result ≡ x % modulus_of self }
    {
        match self {
            Modulus::M31 => Field::reduce(x) as u64,
            Modulus::M61 => Field61::reduce(x),
            Modulus::Small(q) => SmallModulus::new(q).reduce(x),
        }
    }

    pub fn add(self, x: u64, y: u64) -> u64
        ensures { result ≡ add_of (modulus_of self) x y }
    {
        match self {
            Modulus::M31 => Field::add(word(x), word(y)) as u64,
            Modulus::M61 => Field61::add(x, y),
            Modulus::Small(q) => SmallModulus::new(q).add(x, y),
        }
    }

    pub fn sub(self, x: u64, y: u64) -> u64
        ensures { result ≡ sub_of (modulus_of self) x y }
    {
        match self {
            Modulus::M31 => Field::sub(word(x), word(y)) as u64,
            Modulus::M61 => Field61::sub(x, y),
            Modulus::Small(q) => SmallModulus::new(q).sub(x, y),
        }
    }

    pub fn mul(self, x: u64, y: u64) -> u64
        ensures { result ≡ mul_of (modulus_of self) x y }
    {
        match self {
            Modulus::M31 => Field::mul(word(x), word(y)) as u64,
            Modulus::M61 => Field61::mul(x, y),
            Modulus::Small(q) => SmallModulus::new(q).mul(x, y),
        }
    }

    // A step of the queue's hash h: the challenge's r, and the element x.
    pub fn horner(self, h: u64, r: u64, x: u64) -> u64
        ensures { result ≡ horner_of (modulus_of self) h r x }
    {
        match self {
            Modulus::M31 => Field::horner(word(h), word(r), word(x)) as u64,
            Modulus::M61 => Field61::horner(h, r, x),
            Modulus::Small(q) => SmallModulus::new(q).horner(h, r, x),
        }
    }

    // A product times the factor of a triple, of any numbers.
    fn by_any(self, product: u64, r: u64, a: u64, b: u64, c: u64, x: u64, y: u64, z: u64) -> u64
        ensures { result ≡ mul_of (modulus_of self) product (triple_of (modulus_of self) r a b c x y z) }
    {
        match self {
            Modulus::M31 => {
                let factor = Field::triple(
                    word(r),
                    word(a),
                    word(b),
                    word(c),
                    word(x),
                    word(y),
                    word(z),
                );
                Field::mul(word(product), factor) as u64
            }
            Modulus::M61 => Field61::mul(product, Field61::triple(r, a, b, c, x, y, z)),
            Modulus::Small(q) => {
                let m = SmallModulus::new(q);
                m.mul(product, m.triple(r, a, b, c, x, y, z))
            }
        }
    }

    // A product times the factor of a triple. Elements modulo 2³¹ − 1 have 31 bits, as all have
    // where their bitwise or has, and then nothing has to be reduced first; this path is short
    // enough for the compiler to put it in line.
    pub fn by_triple(
        self,
        product: u64,
        r: u64,
        a: u64,
        b: u64,
        c: u64,
        x: u64,
        y: u64,
        z: u64,
    ) -> u64
        ensures { result ≡ mul_of (modulus_of self) product (triple_of (modulus_of self) r a b c x y z) }
    {
        match self {
            Modulus::M31 if (product | r | a | b | c | x | y | z) < HALF => {
                Field::by_triple(product, r, a, b, c, x, y, z)
            }
            _ => self.by_any(product, r, a, b, c, x, y, z),
        }
    }

    // A product times the factor of a pair, in the same way, and a multiplication fewer.
    pub fn by_pair(self, product: u64, r: u64, a: u64, b: u64, x: u64, y: u64) -> u64
        ensures { result ≡ mul_of (modulus_of self) product (pair_of (modulus_of self) r a b x y) }
    {
        match self {
            Modulus::M31 if (product | r | a | b | x | y) < HALF => {
                Field::by_pair(product, r, a, b, x, y)
            }
            _ => self.by_any(product, r, a, b, 0, x, y, 0),
        }
    }
}
