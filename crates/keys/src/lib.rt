// Names as keys: the key of a line's name, and the op or the memory that it stands for. Section
// "The file" of document 01: "The memory is `ram`, `rom`, `set`, `stack` or `queue`." Every slice
// is read, whatever it holds. Names could be slices, matched as byte strings: that proves, and
// `check` then executes 1.4 to 2 % more instructions.
#![tactic(auto)]

ghost use Rattle.std.specs.Prelude.{◌≡◌};
ghost use Rattle.keys.specs.Keys.{first, name_of, op_keyed, memory_keyed};

use decimal::COMMA;
use memory::{Memory, Op};

// The bytes of the longest name of an op or a memory.
const LONGEST_NAME: usize = 7;

// The first field of a line: its key, and the position after it. A name too long for any key has
// the key 0, which no name has: the two lookups by key then need no case for it.
#[derive(Clone, Copy)]
pub struct Name {
    pub key: u64,
    pub next: usize,
}

// The first field: its key, and the position after it.
pub fn name_of(text: &[u8]) -> Name
    ensures { result ≡ name_of (first text.now) }
{
    let stop = text.len().min(LONGEST_NAME);
    let mut key: u64 = 1;
    for i in 0..stop {
        let b = text[i];
        if b == COMMA {
            return Name { key, next: i };
        }
        key = key * 256 + b as u64;
    }
    let next = decimal::position_from(text, COMMA, stop);
    if next == stop {
        Name { key, next }
    } else {
        Name { key: 0, next }
    }
}

// The op whose name has the key: a 1, and the bytes of the name.
#[tactic(auto, unfolding(crate::specs::Keys::op_keyed, crate::specs::Keys::key_of, crate::specs::Keys::key_from, crate::specs::Keys::longest_name, memory::specs::Names::op_name, memory::specs::Text::bytes))]
pub fn op_of(key: u64) -> Op
    ensures { result ≡ op_keyed key }
{
    match key {
        0x1_696e_6974 => Op::Init,
        0x1_6163_6365_7373 => Op::Access,
        0x1_6c6f_6f6b => Op::Look,
        0x1_6d65_6d62_6572 => Op::Member,
        0x1_7075_7368 => Op::Push,
        0x1_70_6f70 => Op::Pop,
        0x1_65_6e71_7565_7565 => Op::Enqueue,
        0x1_64_6571_7565_7565 => Op::Dequeue,
        0x1_65_6e64 => Op::End,
        0x1_72_616e_6765 => Op::Range,
        _ => Op::Other,
    }
}

// The memory whose name has the key.
#[tactic(auto, unfolding(crate::specs::Keys::memory_keyed, crate::specs::Keys::key_of, crate::specs::Keys::key_from, crate::specs::Keys::longest_name, memory::specs::Names::memory_name, memory::specs::Text::bytes))]
pub fn memory_of(key: u64) -> Option<Memory>
    ensures { result ≡ memory_keyed key }
{
    match key {
        0x1_72_616d => Some(Memory::Ram),
        0x1_72_6f6d => Some(Memory::Rom),
        0x1_73_6574 => Some(Memory::Set),
        0x1_73_7461_636b => Some(Memory::Stack),
        0x1_71_7565_7565 => Some(Memory::Queue),
        _ => None,
    }
}
