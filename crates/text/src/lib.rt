// Bytes and numbers put into a lent slice from a position on. Every function is total. The answer
// is the position after what was put. Where a text runs past the slice's end there is none, and the
// slice holds as much of the text as there is room for. Display has no such answer: std promises
// nothing of a slice in which a text does not fit.
#![tactic(auto)]

ghost use Rattle.std.specs.Prelude.{◌≡◌, length};
ghost use Rattle.memory.specs.Print.{number_text};
ghost use Rattle.text.specs.Put.{put_of, written};

// The byte of the digit 0, and the most digits of a u64.
const ZERO: u8 = 48;

const MOST: usize = 20;

// Puts bytes. What fits whole is copied by its own length: of a comma the compiler knows that, and
// stores one byte. By one copy, of the lesser of length and room, a printed row takes three times
// as long.
#[tactic(auto, unfolding(crate::specs::Put::put_of, crate::specs::Put::written))]
pub fn bytes(buf: &mut [u8], at: usize, text: &[u8]) -> Option<usize>
    ensures answer { result ≡ put_of (length buf.old) at text.now }
    ensures slice { buf.new ≡ written buf.old at text.now }
{
    if buf.len() < at {
        return None;
    }
    let room = buf.len() - at;
    if room < text.len() {
        buf[at..].copy_from_slice(&text[..room]);
        return None;
    }
    let end = at + text.len();
    buf[at..end].copy_from_slice(text);
    Some(end)
}

// Puts a number in decimal, without leading zeros.
#[tactic(auto, using(crate::proofs::Digits::laid_room))]
pub fn number(buf: &mut [u8], at: usize, n: u64) -> Option<usize>
    ensures answer { result ≡ put_of (length buf.old) at (number_text n) }
    ensures slice { buf.new ≡ written buf.old at (number_text n) }
{
    let mut digits = [0u8; MOST];
    let mut first = MOST - 1;
    let mut left = n;
    while 9 < left {
        digits[first] = ZERO + (left % 10) as u8;
        left = left / 10;
        first -= 1;
    }
    digits[first] = ZERO + left as u8;
    bytes(buf, at, &digits[first..])
}
