// Values of `Field`, `Field61` and `Modulus`, which tests/field_values.pl computes too: for each
// edge the products with all edges modulo 2⁶¹ − 1, one to a line, and digests of every operation on
// all triples of edges; then for each block of 1,000 random triples of numbers of 64 bits, and as
// many of 32, the digests after them. There are five: of each field, and of each of three moduli.
#![tactic(auto)]

use field::Field;
use field::moduli::Modulus;
use field::prime::PrimeField;
use field::wide::Field61;

const EDGES: [u64; 16] = [
    0,
    1,
    2,
    1073741824,
    2147483646,
    2147483647,
    2147483648,
    4294967295,
    4294967296,
    2305843009213693950,
    2305843009213693951,
    2305843009213693952,
    4611686018427387902,
    4611686018427387903,
    9223372036854775808,
    18446744073709551615,
];

// A number on a line of its own.
fn number(rt: &impl Print, n: u64) {
    let _ = println!(rt; "{n}");
}

// A step of a random generator (xorshift, 13, 7 and 17 digits).
fn next(x: u64) -> u64 {
    let a = x ^ (x << 13);
    let b = a ^ (a >> 7);
    b ^ (b << 17)
}

// A digest with more numbers.
fn digest(d: u64, numbers: &[u64]) -> u64 {
    numbers.iter().fold(d, |d, n| next(d ^ *n))
}

// The last 32 bits of a number.
fn low(n: u64) -> u32 {
    (n % 4294967296) as u32
}

// Every operation of a field: the number reduced, and the others of the elements.
fn of_field<F: PrimeField>(d: u64, number: u64, x: F::Element, y: F::Element, z: F::Element) -> u64
where
    F::Element: Into<u64>,
{
    let values = [
        F::modulus().into(),
        F::elements().into(),
        F::reduce(number).into(),
        F::add(x, y).into(),
        F::sub(x, y).into(),
        F::mul(x, y).into(),
        F::horner(x, y, z).into(),
        F::triple(x, y, z, x, z, x, y).into(),
        F::pair(x, y, z, x, y).into(),
    ];
    digest(d, &values)
}

// Every operation of a modulus.
fn of_modulus(k: Modulus, d: u64, x: u64, y: u64, z: u64) -> u64 {
    let values = [
        k.modulus(),
        k.reduce(x),
        k.add(x, y),
        k.sub(x, y),
        k.mul(x, y),
        k.horner(x, y, z),
        k.by_triple(z, x, y, z, x, z, x, y),
        k.by_pair(z, x, y, z, x, y),
    ];
    digest(d, &values)
}

// A digest of every operation of each field, and one for each of three moduli.
#[derive(Clone, Copy)]
struct Digests {
    pub smaller: u64,
    pub larger: u64,
    pub first: u64,
    pub second: u64,
    pub small: u64,
}

// One triple more, and a small modulus for it.
fn more(s: Digests, q: u8, x: u64, y: u64, z: u64) -> Digests {
    Digests {
        smaller: of_field::<Field>(s.smaller, x, low(x), low(y), low(z)),
        larger: of_field::<Field61>(s.larger, x, x, y, z),
        first: of_modulus(Modulus::M31, s.first, x, y, z),
        second: of_modulus(Modulus::M61, s.second, x, y, z),
        small: of_modulus(Modulus::Small(q), s.small, x, y, z),
    }
}

// The five digests.
fn print(rt: &impl Print, s: Digests) {
    for n in [s.smaller, s.larger, s.first, s.second, s.small] {
        number(rt, n);
    }
}

// Two edges with every third.
fn thirds(before: Digests, x: u64, y: u64) -> Digests {
    let mut s = before;
    for (k, z) in EDGES.iter().enumerate() {
        s = more(s, k as u8, x, y, *z);
    }
    s
}

// An edge with all edges: the products, and the digests after every triple.
fn edge(rt: &impl Print, before: Digests, x: u64) -> Digests {
    let mut s = before;
    for y in EDGES {
        number(rt, Field61::mul(x, y));
        s = thirds(s, x, y);
    }
    print(rt, s);
    s
}

// All edges.
fn edges(rt: &impl Print, before: Digests) -> Digests {
    let mut s = before;
    for x in EDGES {
        s = edge(rt, s, x);
    }
    s
}

// Where the random numbers are, and what they have come to.
#[derive(Clone, Copy)]
struct Drawn {
    pub at: u64,
    pub digests: Digests,
}

// One random triple more. A narrow triple follows each wide one.
fn draw(d: Drawn) -> Drawn {
    let x = next(d.at);
    let y = next(x);
    let z = next(y);
    let q = (z % 256) as u8;
    let wide = more(d.digests, q, x, y, z);
    let word: u64 = 4294967296;
    Drawn {
        at: z,
        digests: more(wide, q, x % word, y % word, z % word),
    }
}

// A block of them.
fn block(rt: &impl Print, before: Drawn) -> Drawn {
    let mut d = before;
    for _ in 0..1000 {
        d = draw(d);
    }
    print(rt, d.digests);
    d
}

fn main(rt: HostRuntime) {
    let none = Digests {
        smaller: 1,
        larger: 2,
        first: 3,
        second: 4,
        small: 5,
    };
    let mut d = Drawn {
        at: 88172645463325252,
        digests: edges(&rt, none),
    };
    for _ in 0..100 {
        d = block(&rt, d);
    }
}
