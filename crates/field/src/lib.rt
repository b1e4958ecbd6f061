// The field of document 01: the integers modulo p = 2³¹ − 1. Elements are u32, and every public
// operation takes any u32, reduced or not. `prime` says what a field is, `wide` has the field
// modulo 2⁶¹ − 1, `small` arithmetic modulo a small number, and `moduli` the modulus that a check
// computes with.
#![tactic(auto)]

ghost use Rattle.std.specs.Prelude.{◌≡◌, ◌*◌, ◌%◌, ◌^◌, ◌≤◌, ◌<◌};
ghost use Rattle.algebra.specs.Prime.{Prime};
ghost use Rattle.algebra.specs.Modulo.{Same};
ghost use Rattle.field.specs.Field.{p, elements_of, challenges_of, add_of, sub_of, mul_of, triple_of, pair_of, horner_of};
ghost use Rattle.field.specs.Fold.{fold_of};

pub mod moduli;
pub mod prime;
mod small;
pub mod wide;

use prime::PrimeField;

#[derive(Clone, Copy)]
pub struct Field;

#[tactic(auto, unfolding(crate::specs::Field::p, crate::specs::Field::add_of, crate::specs::Field::sub_of, crate::specs::Field::mul_of, crate::specs::Field::triple_of, crate::specs::Field::pair_of, crate::specs::Field::horner_of, crate::specs::Fold::fold_of, algebra::specs::Modulo::plus, algebra::specs::Modulo::times))]
impl Field {
    // p
    pub const MODULUS: u32 = 2147483647;

    // How many elements there are: the numbers below p.
    pub const ELEMENTS: u32 = Field::MODULUS;

    // p, as wide as what is folded.
    const WIDE: u64 = Field::MODULUS as u64;

    // 2³¹: division by it is a shift, and its remainder a mask.
    const BASE: u64 = Field::WIDE + 1;

    // A multiple of p that is at least the sum of three folded products.
    const CEILING: u64 = 16 * Field::WIDE;

    // A multiple of p that is at least the sum of three products of numbers of 31 bits.
    const TOP: u64 = 3 * Field::BASE * Field::WIDE;

    // A smaller number that is the same as x modulo p.
    fn fold(x: u64) -> u64
        ensures value { result ≡ fold_of 31 x }
        ensures same { Same p result x }
        ensures small { result < 5 * 2 ^ 31 }
    {
        x / Field::BASE + x % Field::BASE
    }

    // The product of two elements, folded.
    fn product(x: u32, y: u32) -> u64
        ensures same { Same p result (x * y) }
        ensures small { result < 5 * 2 ^ 31 }
    {
        Field::fold(x as u64 * y as u64)
    }

    // x modulo p, for x so small that one fold leaves less than twice p.
    fn settled(x: u64) -> u64
        requires { x < 2 ^ 61 }
        ensures { result ≡ x % p }
    {
        let folded = Field::fold(x);
        if folded < Field::WIDE {
            folded
        } else {
            folded - Field::WIDE
        }
    }

    // The same as an element.
    fn settle(x: u64) -> u32
        requires { x < 2 ^ 61 }
        ensures { result ≡ x % p }
    {
        Field::settled(x) as u32
    }

    // x − y modulo p, for y at most 16 times p.
    fn difference(x: u32, y: u64) -> u32
        requires { y ≤ 16 * p }
        ensures { result ≡ sub_of p x y }
    {
        Field::settle(x as u64 + Field::CEILING - y)
    }

    // A product times the factor r − sum, for a product and an r of 31 bits and a sum of three
    // products of such numbers: the factor is not settled.
    fn by_less(product: u64, r: u64, sum: u64) -> u64
        requires { (product ≤ p) × (r ≤ p) × (sum ≤ 3 * (p * p)) }
        ensures { result ≡ mul_of p product (sub_of p r sum) }
    {
        let factor = Field::fold(r + Field::TOP - sum);
        Field::settled(Field::fold(product * factor))
    }

    // A product times the factor of a triple, and of a pair, for numbers of 31 bits: nothing is
    // folded before the sum. A pair has a function of its own, as a row then takes a multiplication
    // fewer. The challenge is no struct here: its type is memory's, above this crate.
    pub(crate) fn by_triple(
        product: u64,
        r: u64,
        a: u64,
        b: u64,
        c: u64,
        x: u64,
        y: u64,
        z: u64,
    ) -> u64
        requires { (product ≤ p) × (r ≤ p) × (a ≤ p) × (b ≤ p) × (c ≤ p) × (x ≤ p) × (y ≤ p) × (z ≤ p) }
        ensures { result ≡ mul_of p product (triple_of p r a b c x y z) }
    {
        Field::by_less(product, r, a * x + b * y + c * z)
    }

    pub(crate) fn by_pair(product: u64, r: u64, a: u64, b: u64, x: u64, y: u64) -> u64
        requires { (product ≤ p) × (r ≤ p) × (a ≤ p) × (b ≤ p) × (x ≤ p) × (y ≤ p) }
        ensures { result ≡ mul_of p product (pair_of p r a b x y) }
    {
        Field::by_less(product, r, a * x + b * y)
    }
}

#[tactic(auto, unfolding(crate::specs::Field::p, crate::specs::Field::add_of, crate::specs::Field::sub_of, crate::specs::Field::mul_of, crate::specs::Field::triple_of, crate::specs::Field::pair_of, crate::specs::Field::horner_of, crate::specs::Fold::fold_of, algebra::specs::Modulo::plus, algebra::specs::Modulo::times))]
impl PrimeField for Field {
    type Element = u32;

    ghost prime = { p };

    ghost number = { λ x. x };

    fn modulus() -> u32
        ensures value { result ≡ p }
        ensures prime { Prime result }
    {
        Field::MODULUS
    }

    fn elements() -> u32
        ensures value { result ≡ elements_of p }
        ensures challenges { result ^ 4 ≡ challenges_of p }
    {
        Field::ELEMENTS
    }

    // x modulo p, for any x.
    fn reduce(x: u64) -> u32
        ensures { result ≡ x % p }
    {
        Field::settle(Field::fold(x))
    }

    fn add(x: u32, y: u32) -> u32
        ensures { result ≡ add_of p x y }
    {
        Field::settle(x as u64 + y as u64)
    }

    fn sub(x: u32, y: u32) -> u32
        ensures { result ≡ sub_of p x y }
    {
        Field::difference(x, y as u64)
    }

    fn mul(x: u32, y: u32) -> u32
        ensures { result ≡ mul_of p x y }
    {
        Field::reduce(x as u64 * y as u64)
    }

    // The factor of a triple.
    fn triple(r: u32, a: u32, b: u32, c: u32, x: u32, y: u32, z: u32) -> u32
        ensures { result ≡ triple_of p r a b c x y z }
    {
        Field::difference(
            r,
            Field::product(a, x) + Field::product(b, y) + Field::product(c, z),
        )
    }

    // The factor of a pair.
    fn pair(r: u32, a: u32, b: u32, x: u32, y: u32) -> u32
        ensures { result ≡ pair_of p r a b x y }
    {
        Field::difference(r, Field::product(a, x) + Field::product(b, y))
    }

    // A step of the queue's hash h: the challenge's r, and the element x.
    fn horner(h: u32, r: u32, x: u32) -> u32
        ensures { result ≡ horner_of p h r x }
    {
        Field::reduce(h as u64 * r as u64 + x as u64)
    }
}
