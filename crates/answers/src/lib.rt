// The answer of a checker, in the part of its state that no challenge enters: whether rows are
// still taken, a refusal, and the end of file.
#![tactic(auto)]

ghost use Rattle.std.specs.Prelude.{◌≡◌};
ghost use Rattle.memory.specs.Step.{raise, takes_rows, refuse_at, refuse_next, refuse_last, accepting, closed};

use memory::faults::Fault;
use memory::{Context, FIRST_LINE, HEAD_LINES, Products};
use rules::counters;

// "After a refusal or the end of file a state is fixed".
#[tactic(auto, unfolding(memory::specs::Step::takes_rows))]
pub fn takes_rows(c: Context) -> bool
    ensures { result ≡ takes_rows c }
{
    !c.ended & (c.answer == 0)
}

// A refusal on the line that stands so many lines after the rows that have passed. Its fault is a
// number, as in a state, here and below.
#[tactic(auto, unfolding(memory::specs::Step::refuse_at))]
fn refuse_at(c: Context, fault: u32, lines: u32) -> Context
    ensures { result ≡ refuse_at c fault (raise c.passed lines) }
{
    Context {
        answer: fault,
        line: counters::raise(c.passed, lines as u64),
        ..c
    }
}

// A refusal on the next line: the row after k rows stands on line k + 4. Any number, as a state has
// any: also of a fault that no line has.
#[tactic(auto, unfolding(memory::specs::Step::refuse_at, memory::specs::Step::refuse_next))]
pub fn refuse_next(c: Context, fault: u32) -> Context
    ensures { result ≡ refuse_next c fault }
{
    refuse_at(c, fault, FIRST_LINE)
}

// A refusal on the last line: the last of k rows stands on line k + 3.
#[tactic(auto, unfolding(memory::specs::Step::refuse_at, memory::specs::Step::refuse_last))]
fn refuse_last(c: Context, fault: u32) -> Context
    ensures { result ≡ refuse_last c fault }
{
    refuse_at(c, fault, HEAD_LINES)
}

// The accepted end of file.
#[tactic(auto, unfolding(memory::specs::Step::accepting))]
fn accept(c: Context) -> Context
    ensures { result ≡ accepting c }
{
    Context {
        answer: 0,
        line: 0,
        ended: true,
        ..c
    }
}

// The end of file, where rows were taken until then: 7 if rows are missing, then 9, then 10.
pub fn close(c: Context, ps: Products) -> Context
    ensures { result ≡ closed c ps }
{
    if (c.passed as u64) < due::total(c) {
        return refuse_next(c, u32::from(Fault::NotComplete));
    }
    if ps.supplied != ps.looked {
        return refuse_last(c, u32::from(Fault::RangeDiffers));
    }
    if (ps.written == ps.read) & (ps.enqueued == ps.dequeued) {
        accept(c)
    } else {
        refuse_last(c, u32::from(Fault::ShuffleDiffers))
    }
}
