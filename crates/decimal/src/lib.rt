// Numbers of a line: a comma, and after it a number in unsigned decimal. Section "The file" of
// document 01: "Numbers are unsigned decimal". And where a byte stands, such as the comma or the
// line feed that ends a field or a line. Every slice is read, whatever it holds.
#![tactic(auto)]

ghost use Rattle.std.specs.Prelude.{◌≡◌, ◌+◌, ◌-◌, ◌≤◌, ◌==◌, length, drop};
ghost use Rattle.std.specs.List.{position_or_len};
ghost use Rattle.decimal.specs.Numbers.{run, digits_of, number_from};

// The byte before each number.
pub const COMMA: u8 = 44;

const ZERO: u8 = 48;

// "over 10 digits"
const MOST: usize = 10;

// The number that digits stand for, and the position after them.
#[derive(Clone, Copy)]
pub struct Number {
    pub value: u64,
    pub next: usize,
}

// The position of the first such byte; where there is none, the text's length.
fn position_in(text: &[u8], byte: u8) -> usize
    ensures place { result ≡ position_or_len (λ b. b == byte) text.now }
    ensures within { result ≤ length text.now }
{
    let found = text.iter().position(|b| *b == byte);
    found.unwrap_or(text.len())
}

// The same from a position on. Where there is none, it is the text's length, or the position itself
// where that lies past the text.
#[tactic(auto, using(crate::proofs::Positions::drop_least))]
pub fn position_from(text: &[u8], byte: u8, from: usize) -> usize
    ensures { result ≡ from + position_or_len (λ b. b == byte) (drop from text.now) }
{
    let start = from.min(text.len());
    from + position_in(&text[start..], byte)
}

// The digits from a position on, before `stop`: 19 at most, whose number has 64 bits.
#[tactic(auto, using(crate::proofs::Digits::running_stops, crate::proofs::Digits::running_over, crate::proofs::Digits::running_fits))]
fn digits_at(text: &[u8], from: usize, stop: usize) -> Number
    requires { (from ≤ stop) × (stop ≤ length text.now) × (stop ≤ from + 19) }
    ensures { result ≡ digits_of 0 from (run (stop - from) (drop from text.now)) }
{
    let mut value: u64 = 0;
    // a `for` over the positions takes 30 instructions more for a row of short numbers
    let mut i = from;
    while i < stop {
        let digit = text[i].wrapping_sub(ZERO); // above 9 at a byte below ZERO too
        if 9 < digit {
            return Number { value, next: i };
        }
        value = value * 10 + digit as u64;
        i += 1;
    }
    Number { value, next: i }
}

// The comma that stands at a position, and the number after it. Whatever follows its digits is left
// for the next to read: another comma, or a byte, an eleventh digit too, at which no number is
// read.
pub fn number_at(text: &[u8], at: usize) -> Option<Number>
    ensures { result ≡ number_from at (drop at text.now) }
{
    if text.len() <= at || text[at] != COMMA {
        return None;
    }
    let from = at + 1;
    let found = digits_at(text, from, text.len().min(from + MOST));
    if found.next == from {
        return None;
    }
    if from + 1 < found.next && text[from] == ZERO {
        return None;
    }
    Some(found)
}
