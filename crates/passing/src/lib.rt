// What a row that has passed changes of the context: counters, the queue's product of depths,
// gates; and the fault of a row.
#![tactic(auto)]

ghost use Rattle.std.specs.Prelude.{◌≡◌, ◌&&◌, ◌+◌, eqb, leb};
ghost use Rattle.algebra.specs.Modulo.{times};
ghost use Rattle.field.specs.Moduli.{modulus_of};
ghost use Rattle.memory.specs.Rows.{raise_by, lower_by, depth_factor};
ghost use Rattle.memory.specs.Faults.{fault_of};
ghost use Rattle.memory.specs.Step.{pass, sinks, step_fault};

use field::moduli::Modulus;
use memory::faults::Fault;
use memory::{Context, Memory, Op, Row};
use rules::{columns, counters};

// What becomes of a row: its fault, and the context after it.
#[derive(Clone, Copy)]
pub struct Judged {
    pub fault: Result<(), Fault>,
    pub next: Context,
}

// By how much a row raises the depth: "Push adds guard to depth", "Enqueue adds guard to depth".
#[tactic(auto, unfolding(memory::specs::Rows::raise_by, memory::specs::Names::is_op, memory::specs::Names::op_code))]
fn rises(op: Op, guard: u64) -> u64
    ensures { result ≡ raise_by op guard }
{
    match op {
        Op::Push | Op::Enqueue => guard,
        _ => 0,
    }
}

// By how much a row lowers the depth: a pop or a dequeue subtracts guard.
#[tactic(auto, unfolding(memory::specs::Rows::lower_by, memory::specs::Names::is_op, memory::specs::Names::op_code))]
fn falls(op: Op, guard: u64) -> u64
    ensures { result ≡ lower_by op guard }
{
    match op {
        Op::Pop | Op::Dequeue => guard,
        _ => 0,
    }
}

// The queue's product after a row: "Each dequeue multiplies a product by depth + 1 − guard".
fn depths(k: Modulus, c: Context, row: Row) -> u64
    ensures { result ≡ times (modulus_of k) c.depths (depth_factor (modulus_of k) c.pushed c.popped row) }
{
    let op = row.op;
    if op == Op::Dequeue {
        let up = k.add(c.pushed as u64, 1);
        let down = k.add(c.popped as u64, row.guard);
        k.mul(c.depths, k.sub(up, down))
    } else if c.depths < k.modulus() {
        c.depths
    } else {
        k.reduce(c.depths)
    }
}

// The context after a row.
#[tactic(auto, unfolding(memory::specs::Step::pass))]
pub fn pass(k: Modulus, c: Context, row: Row) -> Context
    ensures { result ≡ pass (modulus_of k) c row }
{
    let op = row.op;
    Context {
        passed: counters::raise(c.passed, 1),
        pushed: counters::raise(c.pushed, rises(op, row.guard)),
        popped: counters::raise(c.popped, falls(op, row.guard)),
        depths: depths(k, c, row),
        inputs: counters::raise(c.inputs, gates::inputs(c.memory, op) as u64),
        mults: counters::raise(c.mults, gates::mults(c.memory, op) as u64),
        ..c
    }
}

// 8, of the context after a row: "the queue's depth product is 0, or the stack's depth is below 0".
#[tactic(auto, unfolding(memory::specs::Step::sinks))]
fn sinks(c: Context) -> bool
    ensures { result ≡ sinks c }
{
    let memory = c.memory;
    match memory {
        Memory::Ram | Memory::Rom | Memory::Set => false,
        Memory::Stack => c.pushed < c.popped,
        Memory::Queue => c.depths == 0,
    }
}

// Whether the next row is the last operation.
fn last_operation(c: Context) -> bool
    ensures { result ≡ (leb 1 c.count && eqb (c.passed + 1) (c.size + c.count)) }
{
    (1 <= c.count) & (c.passed as u64 + 1 == c.size as u64 + c.count as u64)
}

// The fault of the next row, where `next` is the context after it: 5, then 6, and at the last
// operation 8.
#[tactic(auto, unfolding(memory::specs::Step::step_fault))]
fn fault(k: Modulus, c: Context, row: Row, next: Context) -> Result<(), Fault>
    requires { next ≡ pass (modulus_of k) c row }
    ensures { fault_of result ≡ step_fault (modulus_of k) c row }
{
    if !due::admits(c, row.op) {
        return Err(Fault::NotDue);
    }
    if !columns::formed(c.memory, row) {
        return Err(Fault::NotFormed);
    }
    if last_operation(c) & sinks(next) {
        return Err(Fault::BelowEmpty);
    }
    Ok(())
}

// The next row: its fault, and the context after it, which a row with a fault has too.
pub fn judge(k: Modulus, c: Context, row: Row) -> Judged
    ensures fault { fault_of result.fault ≡ step_fault (modulus_of k) c row }
    ensures next { result.next ≡ pass (modulus_of k) c row }
{
    let next = pass(k, c, row);
    Judged {
        fault: fault(k, c, row, next),
        next,
    }
}
