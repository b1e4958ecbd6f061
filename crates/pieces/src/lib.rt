// Lines in bytes that come in pieces: where a line ends, and what is kept of one that is not ended.
#![tactic(auto)]

ghost use Rattle.std.specs.Prelude.{◌≡◌, ◌+◌, length, drop};
ghost use Rattle.pieces.specs.Block.{feed_at, rest_of, fronted};

use field::moduli::Modulus;

// As many bytes of an unfinished line are kept as show that it is too long.
pub const KEPT: usize = fields::LONGEST + 1;

// Between two lines of a block: what its lines left, and how many of its bytes are used.
#[derive(Clone, Copy)]
pub struct Taken<S> {
    pub known: S,
    pub used: usize,
}

// Between two pieces: the modulus that is computed with, what the lines left, and how many bytes of
// the line that is being read stand at the front of the caller's buffer. The caller puts the bytes
// that follow behind them: the buffer is lent, and memory is constant.
#[derive(Clone, Copy)]
pub struct Progress<S> {
    pub field: Modulus,
    pub known: S,
    pub kept: usize,
}

// The byte that ends a line.
const FEED: u8 = 10;

// The position of the first line feed from a position on, if there is one.
#[tactic(auto, unfolding(memory::specs::Bytes::feed), using(crate::proofs::Feeds::until_feed_is, crate::proofs::Feeds::feed_found, crate::proofs::Feeds::feed_none))]
pub fn feed_from(block: &[u8], from: usize) -> Option<usize>
    ensures { result ≡ feed_at from block.now }
{
    let at = decimal::position_from(block, FEED, from);
    if at < block.len() { Some(at) } else { None }
}

// Moves an unfinished line, the bytes from a position up to an end, to the front of the buffer, as
// far as it is kept: how many bytes are kept. What stands behind them stays. An end past the buffer
// is the buffer's, and of a line that ends where it begins, or before, nothing is kept.
pub fn keep(buf: &mut [u8], from: usize, end: usize) -> usize
    ensures count { result ≡ length (rest_of from end buf.old) }
    ensures slice { buf.new ≡ fronted (rest_of from end buf.old) buf.old }
{
    let last = end.min(buf.len());
    if last <= from {
        return 0;
    }
    let count = (last - from).min(KEPT);
    buf.copy_within(from..from + count, 0);
    count
}
