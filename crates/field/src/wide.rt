// The larger field, a twin of `Field`: the integers modulo 2⁶¹ − 1. Elements are u64, and every
// public operation takes any u64, reduced or not. What both have in common is `PrimeField`; the
// bodies differ in more than a constant: a product of two u32 fits 64 bits, and one of two u64 is
// made of halves.
ghost use Rattle.std.specs.Prelude.{◌≡◌, ◌+◌, ◌*◌, ◌%◌, ◌^◌, ◌≤◌, ◌<◌};
ghost use Rattle.algebra.specs.Prime.{Prime};
ghost use Rattle.algebra.specs.Modulo.{Same};
ghost use Rattle.field.specs.Field.{elements_of, challenges_of, add_of, sub_of, mul_of, triple_of, pair_of, horner_of};
ghost use Rattle.field.specs.Fold.{fold_of};
ghost use Rattle.field.specs.Wide.{p61};

use crate::prime::PrimeField;

#[derive(Clone, Copy)]
pub struct Field61;

#[tactic(auto, unfolding(crate::specs::Wide::p61, crate::specs::Field::add_of, crate::specs::Field::sub_of, crate::specs::Field::mul_of, crate::specs::Field::horner_of, crate::specs::Fold::fold_of, algebra::specs::Modulo::plus, algebra::specs::Modulo::times))]
impl Field61 {
    // 2⁶¹ − 1
    pub const MODULUS: u64 = 2305843009213693951;

    // How many elements there are: the numbers below the modulus.
    pub const ELEMENTS: u64 = Field61::MODULUS;

    // 2⁶¹: division by it is a shift, and its remainder a mask.
    const BASE: u64 = Field61::MODULUS + 1;

    // 2³¹, at which an element is cut in halves, and 2³⁰: the rest of 61 binary digits.
    const HALF: u64 = 2147483648;

    const REST: u64 = 1073741824;

    // A multiple of the modulus that is at least the sum of three folded products.
    const CEILING: u64 = 4 * Field61::MODULUS;

    // A smaller number that is the same as x modulo 2⁶¹ − 1.
    fn fold(x: u64) -> u64
        ensures value { result ≡ fold_of 61 x }
        ensures same { Same p61 result x }
        ensures small { result < 2 ^ 61 + 7 }
    {
        x / Field61::BASE + x % Field61::BASE
    }

    // The product of two numbers given as halves, x₁ · 2³¹ + x₀ and y₁ · 2³¹ + y₀: modulo 2⁶¹ − 1,
    // 2⁶² is 2 and 2⁶¹ is 1.
    fn halves(x1: u64, x0: u64, y1: u64, y0: u64) -> u64
        requires high { (x1 ≤ 2 ^ 30) × (y1 ≤ 2 ^ 30) }
        requires low { (x0 < 2 ^ 31) × (y0 < 2 ^ 31) }
        ensures value { Same p61 result ((x1 * 2 ^ 31 + x0) * (y1 * 2 ^ 31 + y0)) }
        ensures small { result < 2 ^ 63 + 2 ^ 34 }
    {
        let middle = x1 * y0 + x0 * y1;
        2 * (x1 * y1) + middle / Field61::REST + middle % Field61::REST * Field61::HALF + x0 * y0
    }

    // A number that is the product of x and y modulo 2⁶¹ − 1.
    fn product(x: u64, y: u64) -> u64
        ensures value { Same p61 result (x * y) }
        ensures small { result < 2 ^ 63 + 2 ^ 34 }
    {
        let u = Field61::fold(x);
        let v = Field61::fold(y);
        Field61::halves(
            u / Field61::HALF,
            u % Field61::HALF,
            v / Field61::HALF,
            v % Field61::HALF,
        )
    }

    // x − y modulo 2⁶¹ − 1, for y at most 4 times that.
    fn difference(x: u64, y: u64) -> u64
        requires { y ≤ 4 * p61 }
        ensures { result ≡ sub_of p61 x y }
    {
        Field61::reduce(Field61::fold(x) + Field61::CEILING - y)
    }
}

#[tactic(auto, unfolding(crate::specs::Wide::p61, crate::specs::Field::add_of, crate::specs::Field::sub_of, crate::specs::Field::mul_of, crate::specs::Field::horner_of, crate::specs::Fold::fold_of, algebra::specs::Modulo::plus, algebra::specs::Modulo::times))]
impl PrimeField for Field61 {
    type Element = u64;

    ghost prime = { p61 };

    ghost number = { λ x. x };

    fn modulus() -> u64
        ensures value { result ≡ p61 }
        ensures prime { Prime result }
    {
        Field61::MODULUS
    }

    fn elements() -> u64
        ensures value { result ≡ elements_of p61 }
        ensures challenges { result ^ 4 ≡ challenges_of p61 }
    {
        Field61::ELEMENTS
    }

    // x modulo 2⁶¹ − 1, for any x.
    fn reduce(x: u64) -> u64
        ensures { result ≡ x % p61 }
    {
        let folded = Field61::fold(x);
        if folded < Field61::MODULUS {
            folded
        } else {
            folded - Field61::MODULUS
        }
    }

    fn add(x: u64, y: u64) -> u64
        ensures { result ≡ add_of p61 x y }
    {
        Field61::reduce(Field61::fold(x) + Field61::fold(y))
    }

    fn sub(x: u64, y: u64) -> u64
        ensures { result ≡ sub_of p61 x y }
    {
        Field61::difference(x, Field61::fold(y))
    }

    fn mul(x: u64, y: u64) -> u64
        ensures { result ≡ mul_of p61 x y }
    {
        Field61::reduce(Field61::product(x, y))
    }

    // The factor of a triple.
    fn triple(r: u64, a: u64, b: u64, c: u64, x: u64, y: u64, z: u64) -> u64
        ensures { result ≡ triple_of p61 r a b c x y z }
    {
        let first = Field61::fold(Field61::product(a, x));
        let second = Field61::fold(Field61::product(b, y));
        let third = Field61::fold(Field61::product(c, z));
        Field61::difference(r, first + second + third)
    }

    // The factor of a pair.
    fn pair(r: u64, a: u64, b: u64, x: u64, y: u64) -> u64
        ensures { result ≡ pair_of p61 r a b x y }
    {
        let first = Field61::fold(Field61::product(a, x));
        let second = Field61::fold(Field61::product(b, y));
        Field61::difference(r, first + second)
    }

    // A step of the queue's hash h: the challenge's r, and the element x.
    fn horner(h: u64, r: u64, x: u64) -> u64
        ensures { result ≡ horner_of p61 h r x }
    {
        Field61::reduce(Field61::product(h, r) + Field61::fold(x))
    }
}
