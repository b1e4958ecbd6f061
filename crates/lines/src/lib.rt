// The lines of a checked file: its two names lines, its value line and a row line. Sections "The
// file" and "The numbers" of document 01. Every slice is read, whatever it holds.
#![tactic(auto)]

ghost use Rattle.std.specs.Prelude.{◌≡◌};
ghost use Rattle.field.specs.Moduli.{modulus_of};
ghost use Rattle.memory.specs.Faults.{fault_of, numbered};
ghost use Rattle.memory.specs.Names.{value_names, row_names};
ghost use Rattle.memory.specs.Rows.{parse_row};
ghost use Rattle.memory.specs.File.{opened_by, parse_values, names_fault};
ghost use Rattle.fields.specs.Written.{as_line};
ghost use Rattle.lines.specs.Answers.{opening_of};

use field::moduli::Modulus;
use fields::written::Written;
use memory::faults::Fault;
use memory::names::{ROW_NAMES, VALUE_NAMES};
use memory::{Challenge, Memory, Row, Values};
use rules::sizes;

// What a row line reads as: a row, or its fault 2 or 3.
pub fn row_line(k: Modulus, line: &Written) -> Result<Row, Fault>
    ensures { numbered result ≡ parse_row (modulus_of k) (as_line line.now) }
{
    let mut columns = [0u64; 6];
    let key = fields::sound(k, line, &mut columns)?;
    let [guard, addr, value, old, time, version] = columns;
    Ok(Row {
        op: keys::op_of(key),
        guard,
        addr,
        value,
        old,
        time,
        version,
    })
}

// The values of a value line, or 4, from the memory that its name is that of, and six numbers.
#[tactic(auto, unfolding(memory::specs::File::opened_by, crate::specs::Answers::opening_of), using(crate::proofs::Parse::allowed_fits))]
fn opened_by(named: Option<Memory>, values: [u64; 6]) -> Result<Values, Fault>
    ensures { opening_of result ≡ opened_by named values }
{
    let memory = named.ok_or(Fault::NotAllowed)?;
    let [size, count, r, a, b, c] = values;
    if !sizes::allowed(memory, size, count) {
        return Err(Fault::NotAllowed);
    }
    Ok(Values {
        memory,
        size: size as u32,
        count: count as u32,
        challenge: Challenge { r, a, b, c },
    })
}

// What a value line reads as: its values, or its fault 2, 3 or 4.
pub fn value_line(k: Modulus, line: &Written) -> Result<Values, Fault>
    ensures { opening_of result ≡ parse_values (modulus_of k) (as_line line.now) }
{
    let mut values = [0u64; 6];
    let key = fields::sound(k, line, &mut values)?;
    opened_by(keys::memory_of(key), values)
}

// What a line that is to be these names reads as: the names, or its fault 1 or 2.
#[tactic(auto, unfolding(memory::specs::File::names_fault), using(crate::proofs::Same::same_is))]
pub fn names_line(names: &[u8], line: &Written) -> Result<(), Fault>
    ensures { fault_of result ≡ names_fault names.now (as_line line.now) }
{
    if line.text != names {
        return Err(Fault::NotNames);
    }
    if !line.ended {
        return Err(Fault::Unreadable);
    }
    Ok(())
}

// What line 1 reads as. It and line 3 have a function each, which names the line's names, here and
// in crate fill_lines.
#[tactic(auto, unfolding(memory::specs::Names::value_names, memory::specs::Text::bytes))]
pub fn value_names_line(line: &Written) -> Result<(), Fault>
    ensures { fault_of result ≡ names_fault value_names (as_line line.now) }
{
    names_line(&VALUE_NAMES, line)
}

// What line 3 reads as.
#[tactic(auto, unfolding(memory::specs::Names::row_names, memory::specs::Text::bytes))]
pub fn row_names_line(line: &Written) -> Result<(), Fault>
    ensures { fault_of result ≡ names_fault row_names (as_line line.now) }
{
    names_line(&ROW_NAMES, line)
}
