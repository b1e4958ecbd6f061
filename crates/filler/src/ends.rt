// The end rows and range rows, once all operations are done.
ghost use Rattle.std.specs.Prelude.{◌++◌, ◌≡◌, ◌+◌, ◌*◌, ◌≤◌, length};
ghost use Rattle.memory.specs.Names.{op_code};
ghost use Rattle.index.specs.Values.{values_in};
ghost use Rattle.layout.specs.Laid.{laid};
ghost use Rattle.filler.specs.Ends.{cell_ends, CellsFit, value_ends, ValuesFit, ranges, CellsAndRangesFit, ending, EndingFits};

use super::steps::Cursor;
use super::trace::Trace;
use memory::{Memory, Op};
use words::cells::Cell;
use words::{Advice, Input, cells, counts};

// A row of an op, the other words of which are 0.
fn row_of(op: Op) -> Input
    ensures { result ≡ record { op = op_code op; guard = 0; addr = 0; value = 0 } }
{
    Input {
        op: u64::from(op),
        ..Input::default()
    }
}

// The end rows of so many cells from word `from` on; how many they are.
// Not a loop over a slice of their words: a row takes its cell's place too, `from` + index.
#[tactic(auto, unfolding(memory::specs::Names::op_code), using(crate::proofs::EndRows::cells_turn, crate::proofs::EndRows::cells_done, crate::proofs::EndRows::cells_count))]
fn cell_ends(trace: Trace, from: usize, count: usize, scratch: &[u64], out: &mut [u64]) -> usize
    requires { CellsFit from count scratch.now out.old }
    ensures rows { out.new ≡ laid out.old 0 (cell_ends trace.entry.inits.now trace.entry.ops.now from count scratch.now) }
    ensures count { result ≡ length (cell_ends trace.entry.inits.now trace.entry.ops.now from count scratch.now) }
{
    let row = row_of(Op::End);
    for i in 0..count {
        let at = from + i;
        let word = scratch[at];
        let advice = Advice {
            old: cells::content(at, word, trace.inits, trace.ops),
            time: Cell::from(word).time,
            version: 0,
        };
        words::put(i, row, advice, out);
    }
    count
}

// The end rows of values, by the words of their keys; how many they are.
#[tactic(auto, unfolding(memory::specs::Names::op_code), using(crate::proofs::EndRows::values_turn, crate::proofs::EndRows::values_done, crate::proofs::EndRows::values_ends_count))]
fn value_ends(inits: &[u64], keys: &[u64], out: &mut [u64]) -> usize
    requires { ValuesFit (length keys.now) inits.now keys.now out.old }
    ensures rows { out.new ≡ laid out.old 0 (value_ends 0 (values_in inits.now) keys.now) }
    ensures count { result ≡ length (value_ends 0 (values_in inits.now) keys.now) }
{
    for (i, key) in keys.iter().enumerate() {
        let row = Input {
            value: words::value(inits, i),
            ..row_of(Op::End)
        };
        let advice = Advice {
            version: counts::lookups_in(*key),
            ..Advice::default()
        };
        words::put(i, row, advice, out);
    }
    keys.len()
}

// The range rows of lookups. The loops over init rows, cells, values and lookups have three lines
// each: one function of a closure would state the row of every index, and lead from there to each
// definition.
#[tactic(auto, unfolding(memory::specs::Names::op_code), using(crate::proofs::EndRows::ranges_turn, crate::proofs::EndRows::ranges_done))]
fn range_rows(lookups: &[u64], out: &mut [u64])
    requires { 7 * length lookups.now ≤ length out.old }
    ensures { out.new ≡ laid out.old 0 (ranges 0 (length lookups.now) lookups.now) }
{
    let row = row_of(Op::Range);
    for (i, version) in lookups.iter().enumerate() {
        let advice = Advice {
            version: *version,
            ..Advice::default()
        };
        words::put(i, row, advice, out);
    }
}

// The end rows of so many of the cells, and then the range rows, to which a further part of the
// output is handed on; how many they are.
#[tactic(auto, using(layout::proofs::Laid::laid_handed_on, crate::proofs::EndRows::cells_count, crate::proofs::EndRows::more_count, crate::proofs::EndRows::ranges_lent))]
fn cells_and_ranges(trace: Trace, count: usize, scratch: &[u64], out: &mut [u64]) -> usize
    requires { CellsAndRangesFit trace.width trace.t count scratch.now out.old }
    ensures rows { out.new ≡ laid out.old 0 (cell_ends trace.entry.inits.now trace.entry.ops.now 0 count scratch.now ++ ranges trace.entry.width trace.entry.t scratch.now) }
    ensures count { result ≡ length (cell_ends trace.entry.inits.now trace.entry.ops.now 0 count scratch.now ++ ranges trace.entry.width trace.entry.t scratch.now) }
{
    let cells = cell_ends(trace, 0, count, scratch, out);
    let from = 7 * count;
    let w = trace.width;
    range_rows(&scratch[w..w + trace.t], &mut out[from..]);
    cells + trace.t
}

// The rows after the operations; how many they are.
#[tactic(auto, unfolding(crate::specs::Ends::ending), using(crate::proofs::EndRows::values_lent))]
pub(crate) fn finish(trace: Trace, at: Cursor, scratch: &[u64], out: &mut [u64]) -> usize
    requires { EndingFits trace.memory trace.width trace.t at trace.inits.now scratch.now out.old }
    ensures rows { out.new ≡ laid out.old 0 (ending trace.entry.memory trace.entry.width trace.entry.t at trace.entry.inits.now trace.entry.ops.now scratch.now) }
    ensures count { result ≡ length (ending trace.entry.memory trace.entry.width trace.entry.t at trace.entry.inits.now trace.entry.ops.now scratch.now) }
{
    match trace.memory {
        Memory::Ram => cells_and_ranges(trace, trace.width, scratch, out),
        Memory::Rom | Memory::Set => value_ends(trace.inits, &scratch[..trace.width], out),
        Memory::Stack => cells_and_ranges(trace, at.tail, scratch, out),
        Memory::Queue => cell_ends(trace, at.head, at.tail - at.head, scratch, out),
    }
}
