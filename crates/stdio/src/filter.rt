// A program that reads standard input to its end and prints what that asks for: the loop, over what
// takes the bytes and prints.
ghost use Rattle.std.specs.Prelude.{◌≡◌, ◌≤◌, ℕ, List, [], ◌++◌, take, slice_range, IfSome};
ghost use Rattle.stdio.specs.Write.{Prints};

use crate::{Failure, read_behind};
use std::io;

// What takes an input in pieces and prints at its end. Its caller keeps one buffer, at whose front
// stand the bytes of an unfinished line, which are kept, and puts the bytes that follow behind
// them.
pub trait Filter {
    // What is printed of an input.
    ghost printed: { List ℕ → List ℕ };

    // How many bytes are kept.
    ghost kept: { Self → ℕ };

    // Holds where these bytes of the input are taken, and the last of them are kept.
    ghost has_taken: { Self → List ℕ → List ℕ → Type 0 };

    fn kept(&self) -> usize
        ensures { result ≡ kept self.now };

    // Takes the bytes behind the kept ones, up to where the buffer is filled. (The whole buffer is
    // handed on, and not its filled part: what is kept next is at its front.)
    fn advance(&mut self, buf: &mut [u8], filled: usize)
        ensures { (bytes : List ℕ) → has_taken self.old bytes (take (kept self.old) buf.old)
            → kept self.old ≤ filled
            → has_taken self.new (bytes ++ slice_range buf.old (kept self.old) filled)
            (take (kept self.new) buf.new) };

    // The end of input: prints.
    fn print_end<W: io::Write>(&mut self, output: &mut W, buf: &[u8]) -> Result<(), Failure>
        ensures { (bytes : List ℕ) → has_taken self.old bytes (take (kept self.old) buf.now)
            → Prints (printed bytes) (W.contents output.old) (W.contents output.new) result };
}

// Reads to the end of input and prints. A proved loop has to end, and nothing says that an input
// does: the reads are counted, up to a number that no run reaches.
pub fn run<F: Filter, R: io::Read, W: io::Write>(
    filter: &mut F,
    input: &mut R,
    output: &mut W,
    buf: &mut [u8],
) -> Result<(), Failure>
    ensures { F.has_taken filter.old [] (take (F.kept filter.old) buf.old)
        → IfSome (R.remaining input.old) (λ file.
        Prints (F.printed file) (W.contents output.old) (W.contents output.new) result) }
{
    'reads: for _ in 0..u64::MAX {
        match read_behind(input, buf, filter.kept())? {
            Some(end) => filter.advance(buf, end),
            None => return filter.print_end(output, buf),
        }
    }
    Err(Failure::Endless)
}
