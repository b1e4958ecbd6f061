// Operations to advice: the filler's library. Rows are numbers in slices: 4 words an input row, 7
// words an output row.
#![tactic(auto)]

pub use faults::Refused;
use field::moduli::Modulus;
use index::Tree;
use memory::Memory;
use memory::faults::Fault;
use rules::sizes;
use trace::Trace;
use words::Advice;

mod ends;
mod steps;
mod trace;
mod write;

ghost use Rattle.std.specs.Prelude.{map, ◌≡◌, ◌+◌, ◌*◌, ◌≤◌, length, take, drop, replicate, true};
ghost use Rattle.field.specs.Moduli.{modulus_of};
ghost use Rattle.memory.specs.Faults.{fault_of};
ghost use Rattle.runs.specs.Honest.{bare, filled_rows};
ghost use Rattle.memory.specs.Rows.{sized};
ghost use Rattle.runs.specs.Filler.{inputs_in, rows_fault, fill_rows, fill_of};
ghost use Rattle.index.specs.Values.{values_in};
ghost use Rattle.filler.specs.Answer.{filled_of, numbered_fill, away_by, Roomy, Fills};
ghost use Rattle.layout.specs.Laid.{laid};
ghost use Rattle.faults.specs.Scan.{placed_of};
ghost use Rattle.filler.specs.Write.{CleanInits, Fillable, Prepared, Unprepared, Within};

// Copies the init rows.
#[tactic(auto, using(crate::proofs::InitRows::init_laid, crate::proofs::InitRows::clean_later, crate::proofs::InitRows::inits_done))]
fn copy_inits(trace: Trace, out: &mut [u64])
    requires out_room { 7 * trace.n ≤ length out.old }
    requires clean_inits { CleanInits trace.inits.now }
    ensures { out.new ≡ laid out.old 0 (map bare (inputs_in trace.entry.inits.now)) }
{
    for k in 0..trace.n {
        words::put(k, words::read(trace.inits, k), Advice::default(), out);
    }
}

// Writes all rows, where none has a fault; how many they are. The part of the output after the init
// rows is handed on.
fn write_rows(trace: Trace, out: &mut [u64], scratch: &mut [u64]) -> usize
    requires clean_inits { CleanInits trace.inits.now }
    requires out_room { 7 * trace.n ≤ length out.old }
    requires fillable { Fillable trace.memory trace.n trace.t trace.inits.now trace.ops.now (drop (7 * trace.n) out.old) scratch.old }
    requires prepared { Prepared trace.memory trace.n trace.inits.now scratch.old }
    ensures rows { out.new ≡ laid out.old 0 (filled_rows trace.entry.memory trace.entry.t (inputs_in trace.entry.inits.now) (inputs_in trace.entry.ops.now)) }
    ensures blank { scratch.new ≡ replicate (length scratch.old) 0 }
    ensures count { result ≡ length (filled_rows trace.entry.memory trace.entry.t (inputs_in trace.entry.inits.now) (inputs_in trace.entry.ops.now)) }
{
    copy_inits(trace, out);
    let from = 7 * trace.n;
    let more = write::rows_after(trace, &mut out[from..], scratch);
    words::clear(scratch); // "After a fill scratch is all 0"
    trace.n + more
}

// The first fault of the rows, found with the scratch words as they are before the first operation.
// They are lent as 0.
fn first_fault(field: Modulus, trace: Trace, scratch: &mut [u64]) -> Result<(), Refused>
    requires unprepared { Unprepared trace.n scratch.old }
    requires allowed { sized trace.memory trace.n ≡ true }
    ensures fault { placed_of result ≡ rows_fault (modulus_of field) trace.entry.memory (values_in trace.entry.inits.now) 1 (inputs_in trace.entry.inits.now) (inputs_in trace.entry.ops.now) }
    ensures prepared { Prepared trace.entry.memory trace.entry.n trace.entry.inits.now scratch.new }
{
    write::prepare(trace, scratch);
    let tree = Tree {
        inits: trace.inits,
        links: &scratch[..trace.n],
    };
    faults::first(field, trace.memory, tree, trace.ops)
}

// The filler with room for the rows and exactly n + 2t scratch words, which are 0.
fn fill_within(
    field: Modulus,
    trace: Trace,
    out: &mut [u64],
    scratch: &mut [u64],
) -> Result<usize, Refused>
    requires { Within trace.memory trace.n trace.t out.old scratch.old }
    ensures { Fills (fill_rows (modulus_of field) trace.entry.memory trace.entry.t (inputs_in trace.entry.inits.now) (inputs_in trace.entry.ops.now) out.old scratch.old) result out.new scratch.new }
{
    if let Err(refused) = first_fault(field, trace, scratch) {
        words::clear_both(out, scratch);
        return Err(refused);
    }
    Ok(write_rows(trace, out, scratch))
}

// The filler with room. Of the scratch words only the first n + 2t are handed on; the others are
// cleared.
fn fill_rows(
    field: Modulus,
    trace: Trace,
    out: &mut [u64],
    scratch: &mut [u64],
) -> Result<usize, Refused>
    requires { Roomy trace.memory trace.n trace.t out.old scratch.old }
    ensures { Fills (fill_rows (modulus_of field) trace.entry.memory trace.entry.t (inputs_in trace.entry.inits.now) (inputs_in trace.entry.ops.now) out.old scratch.old) result out.new scratch.new }
{
    words::clear(scratch);
    let used = trace.n + 2 * trace.t;
    fill_within(field, trace, out, &mut scratch[..used])
}

// 4, 7, 14 and 15, by how long the lent slices are.
#[tactic(auto, unfolding(crate::specs::Answer::away_by, runs::specs::Filler::room))]
fn turned_away(
    m: Memory,
    size: u32,
    count: u32,
    rows: usize,
    out: usize,
    scratch: usize,
) -> Result<(), Fault>
    ensures { fault_of result ≡ away_by m size count rows out scratch }
{
    if !sizes::allowed(m, size as u64, count as u64) {
        return Err(Fault::NotAllowed);
    }
    let n = size as usize;
    let t = count as usize;
    if rows != 4 * (n + t) {
        return Err(Fault::NotComplete);
    }
    let room = 2 * n + 3 * t;
    if out < 7 * room {
        return Err(Fault::OutputShort);
    }
    if scratch < room {
        return Err(Fault::ScratchShort);
    }
    Ok(())
}

// How many rows a fill wrote, or its refusal: "The filler's library tests 4, 7 (rows not size +
// count), 14, 15, place 0, buffers as found; then each row." The memory is a number, since 4 is
// also "unknown memory".
pub fn fill(
    field: Modulus,
    memory: u32,
    size: u32,
    count: u32,
    rows: &[u64],
    out: &mut [u64],
    scratch: &mut [u64],
) -> Result<usize, Refused>
    ensures answer { numbered_fill result ≡ filled_of (fill_of (modulus_of field) memory size count rows.now out.old scratch.old) }
    ensures output { out.new ≡ (fill_of (modulus_of field) memory size count rows.now out.old scratch.old).output }
    ensures words { scratch.new ≡ (fill_of (modulus_of field) memory size count rows.now out.old scratch.old).scratch }
{
    let memory = Memory::try_from(memory)?;
    turned_away(memory, size, count, rows.len(), out.len(), scratch.len())?;
    let n = size as usize;
    let t = count as usize;
    let (inits, ops) = rows.split_at(4 * n);
    let trace = Trace {
        memory,
        n,
        t,
        inits,
        ops,
        width: trace::width_of(memory, n, t),
    };
    fill_rows(field, trace, out, scratch)
}
