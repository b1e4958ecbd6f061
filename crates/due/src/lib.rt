// Which rows are due: "decided by the memory and by how many have passed".
#![tactic(auto)]

ghost use Rattle.std.specs.Prelude.{◌≡◌};
ghost use Rattle.memory.specs.Rows.{ends_due, ranges_due, ops_due, op_in};
ghost use Rattle.memory.specs.Step.{due, phase};
ghost use Rattle.due.specs.Due.{ops_of};

use memory::{Context, Memory, Op, Phase};

// The ops that may come next: "a match on memory code and row position yields the allowed op
// codes".
// At most two, by value: a slice would be a loop for each row.
#[derive(Clone, Copy)]
pub(crate) enum Allowed {
    Nothing,
    One(Op),
    Either(Op, Op),
}

// "End rows: n for ram, rom, set; the final depth D for stack and queue"
#[tactic(auto, unfolding(memory::specs::Rows::ends_due))]
pub fn ends(c: Context) -> u32
    ensures { result ≡ ends_due c.memory c.size c.pushed c.popped }
{
    match c.memory {
        Memory::Ram | Memory::Rom | Memory::Set => c.size,
        Memory::Stack | Memory::Queue => c.pushed.saturating_sub(c.popped),
    }
}

// "then for ram and stack T `range` rows"
#[tactic(auto, unfolding(memory::specs::Rows::ranges_due))]
fn ranges(c: Context) -> u32
    ensures { result ≡ ranges_due c.memory c.count }
{
    match c.memory {
        Memory::Ram | Memory::Stack => c.count,
        Memory::Rom | Memory::Set | Memory::Queue => 0,
    }
}

// The rows due in all.
#[tactic(auto, unfolding(memory::specs::Step::due))]
pub fn total(c: Context) -> u64
    ensures { result ≡ due c }
{
    c.size as u64 + c.count as u64 + ends(c) as u64 + ranges(c) as u64
}

// The phase of the next row.
#[tactic(auto, unfolding(memory::specs::Step::phase, memory::specs::Rows::phase_at))]
fn phase(c: Context) -> Phase
    ensures { result ≡ phase c }
{
    let passed = c.passed as u64;
    let starting = c.size as u64;
    let operating = starting + c.count as u64;
    let ending = operating + ends(c) as u64;
    let ranging = ending + ranges(c) as u64;
    if passed < starting {
        Phase::Starting
    } else if passed < operating {
        Phase::Operating
    } else if passed < ending {
        Phase::Ending
    } else if passed < ranging {
        Phase::Ranging
    } else {
        Phase::Over
    }
}

// The ops due in each phase of each memory.
#[tactic(auto, unfolding(memory::specs::Rows::ops_due, crate::specs::Due::ops_of))]
fn ops(memory: Memory, phase: Phase) -> Allowed
    ensures { ops_of result ≡ ops_due memory phase }
{
    match phase {
        Phase::Starting => Allowed::One(Op::Init),
        Phase::Operating => match memory {
            Memory::Ram => Allowed::One(Op::Access),
            Memory::Rom => Allowed::One(Op::Look),
            Memory::Set => Allowed::One(Op::Member),
            Memory::Stack => Allowed::Either(Op::Push, Op::Pop),
            Memory::Queue => Allowed::Either(Op::Enqueue, Op::Dequeue),
        },
        Phase::Ending => Allowed::One(Op::End),
        Phase::Ranging => Allowed::One(Op::Range),
        Phase::Over => Allowed::Nothing,
    }
}

// Whether an op is among those due.
#[tactic(auto, unfolding(memory::specs::Rows::op_in, crate::specs::Due::ops_of), using(memory::proofs::SameOp::same_op))]
fn allows(due: Allowed, op: Op) -> bool
    ensures { result ≡ op_in op (ops_of due) }
{
    match due {
        Allowed::Nothing => false,
        Allowed::One(one) => op == one,
        Allowed::Either(one, other) => (op == one) | (op == other),
    }
}

// Whether an op is due in a phase of a memory.
pub fn takes(memory: Memory, phase: Phase, op: Op) -> bool
    ensures { result ≡ op_in op (ops_due memory phase) }
{
    allows(ops(memory, phase), op)
}

// Whether an op is due next.
pub fn admits(c: Context, op: Op) -> bool
    ensures { result ≡ op_in op (ops_due c.memory (phase c)) }
{
    takes(c.memory, phase(c), op)
}
