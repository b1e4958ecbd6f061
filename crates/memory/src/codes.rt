// The numbers of ops and memories in the slices and the calls of the filler's library.
ghost use Rattle.memory.specs.Names.{op_code, op_coded, memory_code, memory_coded};
ghost use Rattle.std.specs.Prelude.{◌≡◌, ok_or};
ghost use Rattle.memory.specs.declared.faults.Fault.TheVariants.{NotAllowed};

use crate::faults::Fault;
use crate::{Memory, Op};

// The number of an op.
impl From<Op> for u64 {
    ghost from_gives = { λ op code. code ≡ op_code op };

    #[tactic(auto, unfolding(crate::specs::Names::op_code))]
    fn from(op: Op) -> u64 {
        op as u64
    }
}

// The op that a number stands for.
impl From<u64> for Op {
    ghost from_gives = { λ code op. op ≡ op_coded code };

    #[tactic(auto, unfolding(crate::specs::Names::op_coded))]
    fn from(code: u64) -> Op {
        match code {
            0 => Op::Init,
            1 => Op::Access,
            2 => Op::Look,
            3 => Op::Member,
            4 => Op::Push,
            5 => Op::Pop,
            6 => Op::Enqueue,
            7 => Op::Dequeue,
            8 => Op::End,
            9 => Op::Range,
            _ => Op::Other,
        }
    }
}

// The number of a memory.
impl From<Memory> for u32 {
    ghost from_gives = { λ memory code. code ≡ memory_code memory };

    #[tactic(auto, unfolding(crate::specs::Names::memory_code))]
    fn from(memory: Memory) -> u32 {
        memory as u32
    }
}

// The memory that a number stands for; 4 where it stands for none: "unknown memory".
impl TryFrom<u32> for Memory {
    type Error = Fault;

    ghost try_from_gives = { λ code memory. memory ≡ ok_or (memory_coded code) NotAllowed };

    #[tactic(auto, unfolding(crate::specs::Names::memory_coded))]
    fn try_from(code: u32) -> Result<Memory, Fault> {
        match code {
            0 => Ok(Memory::Ram),
            1 => Ok(Memory::Rom),
            2 => Ok(Memory::Set),
            3 => Ok(Memory::Stack),
            4 => Ok(Memory::Queue),
            _ => Err(Fault::NotAllowed),
        }
    }
}
