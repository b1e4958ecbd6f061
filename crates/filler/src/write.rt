// The rows after the init rows: the operations with their advice, the end rows and the range rows.
ghost use Rattle.std.specs.Prelude.{◌≡◌, ◌*◌, ◌≤◌, length};
ghost use Rattle.runs.specs.Filler.{inputs_in};
ghost use Rattle.runs.specs.Honest.{operations_filled};
ghost use Rattle.index.specs.Values.{values_in};
ghost use Rattle.layout.specs.Laid.{laid};
ghost use Rattle.filler.specs.Write.{Fillable, Unprepared, TreeBuilt, Prepared, Ended};

use super::steps::Cursor;
use super::trace::Trace;
use super::{ends, steps};
use memory::Memory;

// The search tree over the elements of a set, in the first n words.
fn build_tree(trace: Trace, scratch: &mut [u64])
    requires { Unprepared trace.n scratch.old }
    ensures { TreeBuilt trace.entry.n trace.entry.inits.now scratch.new }
{
    index::grow(trace.inits, &mut scratch[..trace.n]);
}

// The scratch words before the first operation.
pub(crate) fn prepare(trace: Trace, scratch: &mut [u64])
    requires { Unprepared trace.n scratch.old }
    ensures { Prepared trace.entry.memory trace.entry.n trace.entry.inits.now scratch.new }
{
    match trace.memory {
        Memory::Set => build_tree(trace, scratch),
        Memory::Ram | Memory::Rom | Memory::Stack | Memory::Queue => {}
    }
}

// The operations, each with its advice.
fn operations(trace: Trace, out: &mut [u64], scratch: &mut [u64]) -> Cursor
    requires fillable { Fillable trace.memory trace.n trace.t trace.inits.now trace.ops.now out.old scratch.old }
    requires prepared { Prepared trace.memory trace.n trace.inits.now scratch.old }
    ensures { Ended trace.entry.memory trace.entry.n trace.entry.t trace.entry.inits.now trace.entry.ops.now out.old out.new scratch.new result }
{
    let mut at = Cursor {
        clock: 1,
        head: 0,
        tail: 0,
    };
    for k in 0..trace.t {
        at = steps::step(trace, k, at, out, scratch);
    }
    at
}

// All rows after the init rows; how many they are. A further part of the output is handed on for
// the end and range rows.
pub(crate) fn rows_after(trace: Trace, out: &mut [u64], scratch: &mut [u64]) -> usize
    requires fillable { Fillable trace.memory trace.n trace.t trace.inits.now trace.ops.now out.old scratch.old }
    requires prepared { Prepared trace.memory trace.n trace.inits.now scratch.old }
    ensures rows { out.new ≡ laid out.old 0 (operations_filled trace.entry.memory trace.entry.t (values_in trace.entry.inits.now) (inputs_in trace.entry.ops.now)) }
    ensures count { result ≡ length (operations_filled trace.entry.memory trace.entry.t (values_in trace.entry.inits.now) (inputs_in trace.entry.ops.now)) }
    ensures room { 7 * result ≤ length out.old }
{
    let at = operations(trace, out, scratch);
    let from = 7 * trace.t;
    trace.t + ends::finish(trace, at, scratch, &mut out[from..])
}
