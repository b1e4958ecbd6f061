// The first fault of the input rows: "then each row 3, 5, 6, 11, 12, 13, place its number from 1".
// Nothing is written: of a ram and a rom the number of cells matters, of a stack and a queue the
// depth, of a set its search tree. The number of cells, or the depth, is the level.
#![tactic(auto)]

ghost use Rattle.std.specs.Prelude.{◌≡◌, ◌^◌, ◌<◌};
ghost use Rattle.field.specs.Moduli.{modulus_of};
ghost use Rattle.memory.specs.Faults.{fault_of};
ghost use Rattle.runs.specs.Filler.{inputs_in};
ghost use Rattle.index.specs.Values.{values_in};
ghost use Rattle.words.specs.Inputs.{input_of};
ghost use Rattle.faults.specs.Scan.{outside, emptied, missing, refusal, moved, leveled, fault_at, init_fault, inits_scanned, in_tree, operations_scanned, first_of, placed_of};

use field::moduli::Modulus;
use index::Tree;
use memory::faults::Fault;
use memory::{Memory, Op, Phase};
use runs::Given;
use words::Input;

// A fault, and the number of the row that has it; 0 where it is no row's.
#[derive(Clone, Copy)]
pub struct Refused {
    pub fault: Fault,
    pub place: usize,
}

// A fault that is no row's: "4, 7 (rows not size + count), 14, 15, place 0".
impl From<Fault> for Refused {
    ghost from_gives = { λ fault refused. refused ≡ record { fault = fault; place = 0 } };

    fn from(fault: Fault) -> Refused {
        Refused { fault, place: 0 }
    }
}

// 11, where an address is not below the level.
fn outside(addr: u64, level: usize) -> Result<(), Fault>
    ensures { fault_of result ≡ outside addr level }
{
    if addr as usize >= level {
        return Err(Fault::Outside);
    }
    Ok(())
}

// 12: an executed pop or dequeue at depth 0.
fn emptied(up: bool, guard: u64, level: usize) -> Result<(), Fault>
    ensures { fault_of result ≡ emptied up guard level }
{
    if !up && guard == 1 && level == 0 {
        return Err(Fault::Empty);
    }
    Ok(())
}

// 13, where the tree gives no place of a value.
fn missing(tree: Tree, value: u64) -> Result<(), Fault>
    ensures { fault_of result ≡ missing (in_tree (values_in tree.entry.inits.now) tree.entry.links.now) value }
{
    tree.find(value).map(|_| ()).ok_or(Fault::NotMember)
}

// 11, 12 and 13, at a level.
#[tactic(auto, unfolding(crate::specs::Scan::refusal, memory::specs::Names::op_code))]
fn refusal(m: Memory, level: usize, row: Input, tree: Tree) -> Result<(), Fault>
    ensures { fault_of result ≡ refusal m (in_tree (values_in tree.entry.inits.now) tree.entry.links.now) level row.op row.guard row.addr row.value }
{
    match m {
        Memory::Ram | Memory::Rom => outside(row.addr, level),
        Memory::Set => missing(tree, row.value),
        Memory::Stack => emptied(row.op == u64::from(Op::Push), row.guard, level),
        Memory::Queue => emptied(row.op == u64::from(Op::Enqueue), row.guard, level),
    }
}

// The depth after an operation that goes up or down.
fn moved(up: bool, guard: u64, level: usize) -> usize
    requires { level < 2 ^ 63 }
    ensures { result ≡ moved up guard level }
{
    if guard != 1 {
        return level;
    }
    if up {
        level + 1
    } else {
        level.saturating_sub(1)
    }
}

// The level after an operation.
#[tactic(auto, unfolding(crate::specs::Scan::leveled, memory::specs::Names::op_code))]
fn leveled(m: Memory, level: usize, op: u64, guard: u64) -> usize
    requires { level < 2 ^ 63 }
    ensures { result ≡ leveled m level op guard }
{
    match m {
        Memory::Ram | Memory::Rom | Memory::Set => level,
        Memory::Stack => moved(op == u64::from(Op::Push), guard, level),
        Memory::Queue => moved(op == u64::from(Op::Enqueue), guard, level),
    }
}

// The fault of an init row.
#[tactic(auto, unfolding(crate::specs::Scan::init_fault))]
fn init_fault(field: Modulus, row: Input) -> Result<(), Fault>
    ensures { fault_of result ≡ init_fault (modulus_of field) (input_of row) }
{
    inputs::fault(field, Memory::Ram, Phase::Starting, Given::from(row))
}

// The fault of an operation at a level: 3, 5, 6, then 11, 12, 13.
#[tactic(auto, using(crate::proofs::Scanned::fault_form, crate::proofs::Scanned::fault_possible))]
fn operation_fault(
    field: Modulus,
    m: Memory,
    level: usize,
    row: Input,
    tree: Tree,
) -> Result<(), Fault>
    ensures { fault_of result ≡ fault_at (modulus_of field) m (in_tree (values_in tree.entry.inits.now) tree.entry.links.now) level (input_of row) }
{
    inputs::fault(field, m, Phase::Operating, Given::from(row))?;
    refusal(m, level, row, tree)
}

// The first fault of the init rows.
#[tactic(auto, using(crate::proofs::Scanned::inits_refused, crate::proofs::Scanned::inits_passed, crate::proofs::Scanned::inits_done))]
fn scan_inits(field: Modulus, inits: &[u64]) -> Result<(), Refused>
    ensures { placed_of result ≡ inits_scanned (modulus_of field) 1 (inputs_in inits.now) }
{
    for k in 0..inits.len() / 4 {
        init_fault(field, words::read(inits, k)).map_err(|fault| Refused {
            fault,
            place: k + 1,
        })?;
    }
    Ok(())
}

// The first fault of the operations. Unlike that of the init rows, it carries a level.
#[tactic(auto, unfolding(crate::specs::Scan::operations_scanned), using(crate::proofs::Scanned::operations_refused, crate::proofs::Scanned::operations_passed, crate::proofs::Scanned::operations_done, crate::proofs::Scanned::leveled_rise, crate::proofs::Inputs::inputs_many))]
fn scan_operations(field: Modulus, m: Memory, tree: Tree, ops: &[u64]) -> Result<(), Refused>
    ensures { placed_of result ≡ operations_scanned (modulus_of field) m tree.entry.inits.now tree.entry.links.now ops.now }
{
    let n = tree.inits.len() / 4;
    let mut level = n;
    for k in 0..ops.len() / 4 {
        let row = words::read(ops, k);
        operation_fault(field, m, level, row, tree).map_err(|fault| Refused {
            fault,
            place: n + k + 1,
        })?;
        level = leveled(m, level, row.op, row.guard);
    }
    Ok(())
}

// The first fault of all rows, of 4 words each. The init rows of any memory are in the tree, whose
// links are read of a set alone.
#[tactic(auto, unfolding(crate::specs::Scan::first_of, runs::specs::Filler::placed))]
pub fn first(field: Modulus, m: Memory, tree: Tree, ops: &[u64]) -> Result<(), Refused>
    ensures { placed_of result ≡ first_of (modulus_of field) m tree.entry.inits.now tree.entry.links.now ops.now }
{
    scan_inits(field, tree.inits)?;
    scan_operations(field, m, tree, ops)
}
