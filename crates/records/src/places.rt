// The place of an end row or a range row among its like.
ghost use Rattle.std.specs.Prelude.{◌≡◌};
ghost use Rattle.memory.specs.Step.{end_place, range_place};

use memory::Context;

// The place of the next end row among the end rows, from 0.
#[tactic(auto, unfolding(memory::specs::Step::end_place))]
pub fn end_place(c: Context) -> u32
    ensures { result ≡ end_place c }
{
    let passed = c.passed as u64;
    let before = c.size as u64 + c.count as u64;
    passed.saturating_sub(before) as u32
}

// The place of the next range row among the range rows, from 0.
#[tactic(auto, unfolding(memory::specs::Step::range_place))]
pub fn range_place(c: Context) -> u32
    ensures { result ≡ range_place c }
{
    let passed = c.passed as u64;
    let before = c.size as u64 + c.count as u64 + due::ends(c) as u64;
    passed.saturating_sub(before) as u32
}
