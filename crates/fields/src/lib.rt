// A line to its fields: a name, told by its key, and numbers. Section "The file" of document 01,
// and 2 and 3 of section "The numbers". Every slice is read, whatever it holds.
#![tactic(auto)]

ghost use Rattle.std.specs.Prelude.{◌≡◌, suc, length};
ghost use Rattle.field.specs.Moduli.{modulus_of};
ghost use Rattle.memory.specs.Bytes.{fields_of};
ghost use Rattle.fields.specs.Written.{as_line};
ghost use Rattle.fields.specs.Keyed.{taken_of, fields_taken, keyed_of, by_key};

pub mod written;

use field::moduli::Modulus;
use memory::faults::Fault;
use written::Written;

// "a line holds at most 80 bytes and then one line feed"
pub const LONGEST: usize = 80;

// What a line reads as: the key of its name, and whether its numbers, which are in the slice that
// was lent, are all below the modulus (3 where they are not). The key and the numbers are told in
// both cases.
#[derive(Clone, Copy)]
pub struct Found {
    pub key: u64,
    pub below: bool,
}

// What a line reads as that is to have a name and as many numbers as are lent. `None` is 2; which
// numbers the slice then holds is free; it is as long as it was.
pub fn read(k: Modulus, line: &Written, numbers: &mut [u64]) -> Option<Found>
    ensures answer { taken_of numbers.new result ≡ fields_taken (modulus_of k) (length numbers.old) (as_line line.now) }
    ensures many { length numbers.new ≡ length numbers.old }
{
    let q = k.modulus();
    let Written { text, ended } = *line;
    if LONGEST < text.len() || !ended {
        return None;
    }
    let name = keys::name_of(text);
    let mut next = name.next;
    let mut below = true;
    for number in numbers.iter_mut() {
        let Some(found) = decimal::number_at(text, next) else {
            return None; // 2, also where a number before it is the modulus or more
        };
        below = below & (found.value < q);
        *number = found.value;
        next = found.next;
    }
    if next != text.len() {
        return None;
    }
    Some(Found {
        key: name.key,
        below,
    })
}

// The key of the name of a line that reads as a name and numbers below the modulus; or the line's
// fault, 2 before 3.
pub fn sound(k: Modulus, line: &Written, numbers: &mut [u64]) -> Result<u64, Fault>
    ensures answer { keyed_of numbers.new result ≡ by_key (fields_of (modulus_of k) (suc (length numbers.old)) (as_line line.now)) }
    ensures many { length numbers.new ≡ length numbers.old }
{
    let found = read(k, line, numbers).ok_or(Fault::Unreadable)?;
    if !found.below {
        return Err(Fault::TooLarge);
    }
    Ok(found.key)
}
