// What is filled.
ghost use Rattle.std.specs.Prelude.{◌≡◌, ◌*◌, length};
ghost use Rattle.filler.specs.Write.{width_of};

use memory::Memory;

// "The trace is the memory, n, T, the init values, every operation's op, guard, addr and value":
// all but the first three stand in rows, as they are lent. The width is how many cells the scratch
// words hold.
#[derive(Clone, Copy)]
pub(crate) struct Trace<'a> {
    pub memory: Memory,
    pub n: usize,
    pub t: usize,
    pub inits: &'a [u64],
    pub ops: &'a [u64],
    pub width: usize,
    ghost starting: { 4 * n ≡ length inits.now },
    ghost operating: { 4 * t ≡ length ops.now },
    ghost wide: { width ≡ width_of memory n t },
}

// How many cells the scratch words hold.
#[tactic(auto, unfolding(crate::specs::Write::width_of))]
pub(crate) fn width_of(memory: Memory, n: usize, t: usize) -> usize
    ensures { result ≡ width_of memory n t }
{
    match memory {
        Memory::Ram | Memory::Rom | Memory::Set => n,
        Memory::Stack | Memory::Queue => t,
    }
}
