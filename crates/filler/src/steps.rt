// One operation of each memory: its advice is found and its row written, and the scratch words come
// to hold the memory after it.
//
// No content stands in the scratch words. Of a ram, a stack and a queue the words of the cells
// (words::cells) lie from 0 on, as many as the width, and of a ram and a stack the lookups of each
// age from the width on, of age 1 first. Of a rom and a set the words of the keys (words::counts)
// lie from 0 on: the addresses, and the elements, whose words hold the search tree too.
ghost use Rattle.std.specs.Prelude.{cond, ◌≡◌, ◌+◌, ◌^◌, ◌<◌, eqb, length, get_or, set};
ghost use Rattle.memory.specs.Rows.{limit};
ghost use Rattle.words.specs.Cells.{packed};
ghost use Rattle.words.specs.Counts.{lookup, lookups_in};
ghost use Rattle.filler.specs.Steps.{Countable, KeyCountable, Turned, Advised, ram_told, Timely, rom_told, RomReady, set_told, SetReady, push_told, PushReady, pop_told, PopReady, enqueue_told, EnqueueReady, dequeue_told, DequeueReady, stack_told, StackReady, queue_told, QueueReady, told_by, ReadyBy, turn, advanced, Ready};

use super::trace::Trace;
use index::Tree;
use memory::{Memory, Op};
use words::cells::Cell;
use words::{Advice, Input, cells, counts};

// The clock, and where the cells begin and end that a stack or a queue holds.
#[derive(Clone, Copy)]
pub(crate) struct Cursor {
    pub clock: u64,
    pub head: usize,
    pub tail: usize,
}

// The word at a slot, which rises by so much.
fn raised(slot: usize, by: u64, scratch: &mut [u64]) -> u64
    requires slot { slot < length scratch.old }
    requires room { get_or scratch.old slot 0 + by < 2 ^ 64 }
    ensures word { result ≡ get_or scratch.old slot 0 }
    ensures counted { scratch.new ≡ set scratch.old slot (get_or scratch.old slot 0 + by) }
{
    let word = scratch[slot];
    scratch[slot] = word + by;
    word
}

// "version is the number of earlier lookups of the same key": the lookups of an age, which rise by
// one.
#[tactic(auto, unfolding(memory::specs::Rows::limit))]
fn looked(slot: usize, scratch: &mut [u64]) -> u64
    requires { Countable scratch.old slot }
    ensures version { result ≡ get_or scratch.old slot 0 }
    ensures counted { scratch.new ≡ set scratch.old slot (get_or scratch.old slot 0 + 1) }
{
    raised(slot, 1, scratch)
}

// The lookups of a key, which rise by one.
#[tactic(auto, unfolding(memory::specs::Rows::limit, words::specs::Counts::lookup, words::specs::Counts::lookups_in))]
fn key_looked(key: usize, scratch: &mut [u64]) -> u64
    requires { KeyCountable scratch.old key }
    ensures version { result ≡ lookups_in (get_or scratch.old key 0) }
    ensures counted { scratch.new ≡ set scratch.old key (get_or scratch.old key 0 + lookup) }
{
    counts::lookups_in(raised(key, counts::LOOKUP, scratch))
}

// Guard 1 takes the operation for the source of its cell; guard 0 keeps the source.
fn chosen(guard: u64, taken: u64, kept: u64) -> u64
    ensures { result ≡ cond (eqb guard 1) taken kept }
{
    if guard == 1 { taken } else { kept }
}

// Operation k, an access at a clock. A store makes it the source of its cell; a load leaves the
// source as it is.
#[tactic(auto, unfolding(crate::specs::Steps::ram_told, memory::specs::Rows::limit))]
fn ram(trace: Trace, k: usize, at: Cursor, row: Input, scratch: &mut [u64]) -> (Advice, Cursor)
    requires { Timely trace.width k at row.addr scratch.old }
    ensures { Advised (ram_told trace.entry.width k at row.guard row.addr trace.entry.inits.now trace.entry.ops.now scratch.old) result.0 result.1 scratch.new }
{
    let addr = row.addr as usize;
    let word = scratch[addr];
    let cell = Cell::from(word);
    let version = looked(trace.width + (at.clock - cell.time - 1) as usize, scratch);
    let source = chosen(row.guard, k as u64 + 1, cell.source);
    let written = Cell {
        source,
        time: at.clock,
    };
    scratch[addr] = u64::from(written);
    let advice = Advice {
        old: cells::content(addr, word, trace.inits, trace.ops),
        time: cell.time,
        version,
    };
    let clock = at.clock + 1;
    (advice, Cursor { clock, ..at })
}

// A look.
#[tactic(auto, unfolding(crate::specs::Steps::rom_told))]
fn rom(at: Cursor, addr: u64, inits: &[u64], scratch: &mut [u64]) -> (Advice, Cursor)
    requires { RomReady addr scratch.old }
    ensures { Advised (rom_told at addr inits.now scratch.old) result.0 result.1 scratch.new }
{
    let cell = addr as usize;
    let version = key_looked(cell, scratch);
    let advice = Advice {
        old: words::value(inits, cell),
        time: 0,
        version,
    };
    (advice, at)
}

// A member: "equal set elements give all lookups to the first".
#[tactic(auto, unfolding(crate::specs::Steps::set_told), using(crate::proofs::Members::tree_key))]
fn member(trace: Trace, at: Cursor, value: u64, scratch: &mut [u64]) -> (Advice, Cursor)
    requires { SetReady trace.width value trace.inits.now scratch.old }
    ensures { Advised (set_told at value trace.entry.inits.now scratch.old) result.0 result.1 scratch.new }
{
    let tree = Tree {
        inits: trace.inits,
        links: &scratch[..trace.width],
    };
    let key = tree.find(value).unwrap_or(trace.width);
    let version = key_looked(key, scratch);
    let advice = Advice {
        version,
        ..Advice::default()
    };
    (advice, at)
}

// Operation k puts its cell behind the others.
#[tactic(auto, unfolding(memory::specs::Rows::limit))]
fn appended(k: usize, time: u64, at: Cursor, scratch: &mut [u64]) -> Cursor
    requires low { k < limit }
    requires free { at.tail < length scratch.old }
    ensures next { result ≡ record at { tail = at.tail + 1 } }
    ensures kept { scratch.new ≡ set scratch.old at.tail (packed (k + 1) time) }
{
    let cell = Cell {
        source: k as u64 + 1,
        time,
    };
    scratch[at.tail] = u64::from(cell);
    let tail = at.tail + 1;
    Cursor { tail, ..at }
}

// Operation k, a push, executed or skipped.
#[tactic(auto, unfolding(crate::specs::Steps::push_told, crate::specs::Steps::pushed, memory::specs::Rows::limit))]
fn push(k: usize, at: Cursor, guard: u64, scratch: &mut [u64]) -> (Advice, Cursor)
    requires { PushReady k at guard scratch.old }
    ensures { Advised (push_told k at guard scratch.old) result.0 result.1 scratch.new }
{
    if guard != 1 {
        return (Advice::default(), at);
    }
    let next = appended(k, at.clock, at, scratch);
    let clock = at.clock + 1;
    (Advice::default(), Cursor { clock, ..next })
}

// A pop, executed or skipped: "A skipped pop gets old 0 and time clock − 1", and so looks up age 1.
#[tactic(auto, unfolding(crate::specs::Steps::pop_told, crate::specs::Steps::popped))]
fn pop(trace: Trace, at: Cursor, guard: u64, scratch: &mut [u64]) -> (Advice, Cursor)
    requires { PopReady trace.width at guard scratch.old }
    ensures { Advised (pop_told trace.entry.width at guard trace.entry.inits.now trace.entry.ops.now scratch.old) result.0 result.1 scratch.new }
{
    let clock = at.clock;
    if guard != 1 {
        let advice = Advice {
            old: 0,
            time: clock - 1,
            version: looked(trace.width, scratch),
        };
        return (advice, at);
    }
    let top = at.tail - 1;
    let word = scratch[top];
    let time = Cell::from(word).time;
    let version = looked(trace.width + (clock - time - 1) as usize, scratch);
    let advice = Advice {
        old: cells::content(top, word, trace.inits, trace.ops),
        time,
        version,
    };
    (advice, Cursor { tail: top, ..at })
}

// Operation k, an enqueue, executed or skipped. An element has no time.
#[tactic(auto, unfolding(crate::specs::Steps::enqueue_told, crate::specs::Steps::enqueued))]
fn enqueue(k: usize, at: Cursor, guard: u64, scratch: &mut [u64]) -> (Advice, Cursor)
    requires { EnqueueReady k at guard scratch.old }
    ensures { Advised (enqueue_told k at guard scratch.old) result.0 result.1 scratch.new }
{
    if guard != 1 {
        return (Advice::default(), at);
    }
    let next = appended(k, 0, at, scratch);
    (Advice::default(), next)
}

// A dequeue, executed or skipped: "a skipped dequeue old 0". It reads the word at the head, and
// looks nothing up: but for two lines it has nothing in common with a pop.
#[tactic(auto, unfolding(crate::specs::Steps::dequeue_told, crate::specs::Steps::dequeued))]
fn dequeue(trace: Trace, at: Cursor, guard: u64, scratch: &[u64]) -> (Advice, Cursor)
    requires { DequeueReady at guard scratch.now }
    ensures { Advised (dequeue_told at guard trace.entry.inits.now trace.entry.ops.now scratch.now) result.0 result.1 scratch.now }
{
    if guard != 1 {
        return (Advice::default(), at);
    }
    let advice = Advice {
        old: cells::content(at.head, scratch[at.head], trace.inits, trace.ops),
        ..Advice::default()
    };
    let head = at.head + 1;
    (advice, Cursor { head, ..at })
}

// Operation k, a push or a pop.
#[tactic(auto, unfolding(crate::specs::Steps::stack_told, memory::specs::Names::op_code))]
fn stack(trace: Trace, k: usize, at: Cursor, row: Input, scratch: &mut [u64]) -> (Advice, Cursor)
    requires { StackReady trace.width k at row.op row.guard scratch.old }
    ensures { Advised (stack_told trace.entry.width k at row.op row.guard trace.entry.inits.now trace.entry.ops.now scratch.old) result.0 result.1 scratch.new }
{
    if row.op == u64::from(Op::Push) {
        return push(k, at, row.guard, scratch);
    }
    pop(trace, at, row.guard, scratch)
}

// Operation k, an enqueue or a dequeue.
#[tactic(auto, unfolding(crate::specs::Steps::queue_told, memory::specs::Names::op_code))]
fn queue(trace: Trace, k: usize, at: Cursor, row: Input, scratch: &mut [u64]) -> (Advice, Cursor)
    requires { QueueReady k at row.op row.guard scratch.old }
    ensures { Advised (queue_told k at row.op row.guard trace.entry.inits.now trace.entry.ops.now scratch.old) result.0 result.1 scratch.new }
{
    if row.op == u64::from(Op::Enqueue) {
        return enqueue(k, at, row.guard, scratch);
    }
    dequeue(trace, at, row.guard, scratch)
}

// The advice of operation k, and the cursor after it.
#[tactic(auto, unfolding(crate::specs::Steps::told_by))]
fn advise(trace: Trace, k: usize, at: Cursor, row: Input, scratch: &mut [u64]) -> (Advice, Cursor)
    requires { ReadyBy trace.memory trace.width k at row.op row.guard row.addr row.value trace.inits.now scratch.old }
    ensures { Advised (told_by trace.entry.memory trace.entry.width k at row.op row.guard row.addr row.value trace.entry.inits.now trace.entry.ops.now scratch.old) result.0 result.1 scratch.new }
{
    match trace.memory {
        Memory::Ram => ram(trace, k, at, row, scratch),
        Memory::Rom => rom(at, row.addr, trace.inits, scratch),
        Memory::Set => member(trace, at, row.value, scratch),
        Memory::Stack => stack(trace, k, at, row, scratch),
        Memory::Queue => queue(trace, k, at, row, scratch),
    }
}

// Operation k.
#[tactic(auto, using(crate::proofs::Advised::ready_read, crate::proofs::Advised::told_turned))]
pub(crate) fn step(
    trace: Trace,
    k: usize,
    at: Cursor,
    out: &mut [u64],
    scratch: &mut [u64],
) -> Cursor
    requires { Ready trace.memory trace.width k at trace.inits.now trace.ops.now scratch.old }
    ensures turned { Turned k (turn trace.entry.memory trace.entry.width k at trace.entry.inits.now trace.entry.ops.now scratch.old) out.old out.new scratch.new }
    ensures next { result ≡ advanced trace.entry.memory k at trace.entry.ops.now }
{
    let row = words::read(trace.ops, k);
    let (advice, next) = advise(trace, k, at, row, scratch);
    words::put(k, row, advice, out);
    next
}
