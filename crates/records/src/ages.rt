// The ages that the range holds.
ghost use Rattle.std.specs.Prelude.{◌≡◌};
ghost use Rattle.field.specs.Field.{sub_of};
ghost use Rattle.field.specs.Moduli.{modulus_of};

use field::moduli::Modulus;

// "looks up clock − time", modulo the modulus: where that is 2·T or more, a time from the clock up
// to T has the age 0 or an age above T.
pub fn age(k: Modulus, clock: u64, time: u64) -> u64
    ensures { result ≡ sub_of (modulus_of k) clock time }
{
    k.sub(clock, time)
}
