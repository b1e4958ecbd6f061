// The gates of a row: section "Gates of an accepted file" of document 01.
#![tactic(auto)]

ghost use Rattle.std.specs.Prelude.{◌≡◌};
ghost use Rattle.memory.specs.Gates.{row_inputs, row_mults};

use memory::{Memory, Op};

// The inputs of a row.
#[tactic(auto, unfolding(memory::specs::Gates::row_inputs, memory::specs::Rows::used, memory::specs::Rows::columns, algebra::specs::Sum::bit))]
pub fn inputs(memory: Memory, op: Op) -> u32
    ensures { result ≡ row_inputs memory op }
{
    match op {
        Op::Init => 0,
        Op::Access => 3,
        Op::Look => 2,
        Op::Member => 1,
        Op::Push => 0,
        Op::Pop => 3,
        Op::Enqueue => 0,
        Op::Dequeue => 1,
        Op::End => match memory {
            Memory::Ram | Memory::Stack => 2,
            Memory::Rom | Memory::Set | Memory::Queue => 1,
        },
        Op::Range => 1,
        Op::Other => 0,
    }
}

// The multiplications of a row: its factors, choices by a guard, hash steps and depth steps.
#[tactic(auto, unfolding(memory::specs::Gates::costs, memory::specs::Gates::row_costs, memory::specs::Gates::row_mults))]
pub fn mults(memory: Memory, op: Op) -> u32
    ensures { result ≡ row_mults memory op }
{
    match op {
        Op::Init => 1,
        Op::Access => 4 + 1,
        Op::Look => 2,
        Op::Member => 2,
        Op::Push => 1 + 1,
        Op::Pop => 3 + 1,
        Op::Enqueue => 1 + 1,
        Op::Dequeue => 1 + 1 + 1,
        Op::End | Op::Range => 1,
        Op::Other => 0,
    }
}
