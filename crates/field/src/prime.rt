// What the fields have in common: each is the integers modulo a prime.
ghost use Rattle.std.specs.Prelude.{ℕ, ◌≡◌, ◌%◌, ◌^◌};
ghost use Rattle.algebra.specs.Prime.{Prime};
ghost use Rattle.field.specs.Field.{elements_of, challenges_of, add_of, sub_of, mul_of, triple_of, pair_of, horner_of};

// Elements are numbers of a type, and every operation takes any number of it, reduced or not.
pub trait PrimeField {
    type Element: Copy;

    // The prime, and the number that an element is.
    ghost prime: { ℕ };

    ghost number: { Self.Element → ℕ };

    fn modulus() -> Self::Element
        ensures value { number result ≡ prime }
        ensures prime { Prime (number result) };

    // How many elements there are: the numbers below the prime.
    fn elements() -> Self::Element
        ensures value { number result ≡ elements_of prime }
        ensures challenges { number result ^ 4 ≡ challenges_of prime };

    // x modulo the prime, for any x.
    fn reduce(x: u64) -> Self::Element
        ensures { number result ≡ x % prime };

    fn add(x: Self::Element, y: Self::Element) -> Self::Element
        ensures { number result ≡ add_of prime (number x) (number y) };

    fn sub(x: Self::Element, y: Self::Element) -> Self::Element
        ensures { number result ≡ sub_of prime (number x) (number y) };

    fn mul(x: Self::Element, y: Self::Element) -> Self::Element
        ensures { number result ≡ mul_of prime (number x) (number y) };

    // The factor of a triple.
    fn triple(
        r: Self::Element,
        a: Self::Element,
        b: Self::Element,
        c: Self::Element,
        x: Self::Element,
        y: Self::Element,
        z: Self::Element,
    ) -> Self::Element
        ensures { number result ≡ triple_of prime (number r) (number a) (number b) (number c) (number x) (number y) (number z) };

    // The factor of a pair: an operation of its own in document 01.
    fn pair(
        r: Self::Element,
        a: Self::Element,
        b: Self::Element,
        x: Self::Element,
        y: Self::Element,
    ) -> Self::Element
        ensures { number result ≡ pair_of prime (number r) (number a) (number b) (number x) (number y) };

    // A step of the queue's hash h: the challenge's r, and the element x.
    fn horner(h: Self::Element, r: Self::Element, x: Self::Element) -> Self::Element
        ensures { number result ≡ horner_of prime (number h) (number r) (number x) };
}
