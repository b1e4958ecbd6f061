// The sizes and counts of document 01.
ghost use Rattle.std.specs.Prelude.{◌≡◌};
ghost use Rattle.memory.specs.Rows.{sized, allowed};

use memory::Memory;

// "Size n is 0 to 65,536, and 0 for stack and queue. Count T is 0 to 65,536."
pub const LIMIT: u64 = 65536;

#[tactic(auto, unfolding(memory::specs::Rows::limit, memory::specs::Rows::sized))]
fn sized(memory: Memory, size: u64) -> bool
    ensures { result ≡ sized memory size }
{
    match memory {
        Memory::Ram | Memory::Rom | Memory::Set => size <= LIMIT,
        Memory::Stack | Memory::Queue => size == 0,
    }
}

// Not 4: "size or count not allowed".
#[tactic(auto, unfolding(memory::specs::Rows::limit, memory::specs::Rows::allowed))]
pub fn allowed(memory: Memory, size: u64, count: u64) -> bool
    ensures { result ≡ allowed memory size count }
{
    sized(memory, size) & (count <= LIMIT)
}
