// Arithmetic modulo a small number, on any numbers of 64 bits.
ghost use Rattle.std.specs.Prelude.{◌≡◌, ◌%◌, ◌<◌, ◌≤◌, max};
ghost use Rattle.field.specs.Field.{add_of, sub_of, mul_of, triple_of, horner_of};

// A small modulus: at least 2.
#[derive(Clone, Copy)]
pub(crate) struct SmallModulus {
    q: u64,
    ghost small: { (2 ≤ q) × (q < 256) },
}

impl SmallModulus {
    // No number below 2 is a modulus: 2 stands for it.
    pub(crate) fn new(q: u8) -> Self
        ensures { result.q ≡ max q 2 }
    {
        SmallModulus { q: q.max(2) as u64 }
    }

    pub(crate) fn modulus(self) -> u64
        ensures { result ≡ self.q }
    {
        self.q
    }

    pub(crate) fn reduce(self, x: u64) -> u64
        ensures { result ≡ x % self.q }
    {
        x % self.q
    }

    pub(crate) fn add(self, x: u64, y: u64) -> u64
        ensures { result ≡ add_of self.q x y }
    {
        (x % self.q + y % self.q) % self.q
    }

    pub(crate) fn sub(self, x: u64, y: u64) -> u64
        ensures { result ≡ sub_of self.q x y }
    {
        (x % self.q + (self.q - y % self.q)) % self.q
    }

    pub(crate) fn mul(self, x: u64, y: u64) -> u64
        ensures value { result ≡ mul_of self.q x y }
        ensures below { result < self.q }
    {
        (x % self.q) * (y % self.q) % self.q
    }

    // The factor of a triple.
    pub(crate) fn triple(self, r: u64, a: u64, b: u64, c: u64, x: u64, y: u64, z: u64) -> u64
        ensures { result ≡ triple_of self.q r a b c x y z }
    {
        self.sub(r, self.mul(a, x) + self.mul(b, y) + self.mul(c, z))
    }

    // A step of the queue's hash h: the challenge's r, and the element x.
    pub(crate) fn horner(self, h: u64, r: u64, x: u64) -> u64
        ensures { result ≡ horner_of self.q h r x }
    {
        self.add(self.mul(h, r), x)
    }
}
