// The lines of the filling program's input: its two names lines, its value line of three fields and
// its row line of four. Section "The filler" of document 01. Every slice is read, whatever it
// holds.
#![tactic(auto)]

ghost use Rattle.std.specs.Prelude.{◌≡◌, get_or};
ghost use Rattle.field.specs.Moduli.{modulus_of};
ghost use Rattle.memory.specs.Faults.{fault_of};
ghost use Rattle.memory.specs.Names.{fill_names, input_names};
ghost use Rattle.memory.specs.File.{names_fault};
ghost use Rattle.runs.specs.FillFile.{fill_allowed, job_of, parse_job, parse_input};
ghost use Rattle.fields.specs.Written.{as_line};
ghost use Rattle.fill_lines.specs.Answers.{task_of, given_of};

use field::moduli::Modulus;
use fields::written::Written;
use memory::Memory;
use memory::faults::Fault;
use memory::names::{FILL_NAMES, INPUT_NAMES};
use rules::sizes;
use runs::Given;

// "The filling program takes size and count up to 128"
pub const LIMIT: u64 = 128;

// The values of the value line.
#[derive(Clone, Copy)]
pub struct Job {
    pub memory: Memory,
    pub size: u32,
    pub count: u32,
}

// Not 4: "size or count not allowed".
#[tactic(auto, unfolding(runs::specs::FillFile::fill_limit, runs::specs::FillFile::fill_allowed))]
fn allowed(memory: Memory, size: u64, count: u64) -> bool
    ensures { result ≡ fill_allowed memory size count }
{
    sizes::allowed(memory, size, count) & ((size <= LIMIT) & (count <= LIMIT))
}

// The values of the value line, or 4, from the memory that its name is that of, and two numbers.
#[tactic(auto, unfolding(runs::specs::FillFile::job_of, crate::specs::Answers::task_of), using(crate::proofs::Parse::fill_fits))]
fn task_of(named: Option<Memory>, values: [u64; 2]) -> Result<Job, Fault>
    ensures { task_of result ≡ job_of named (get_or values 0 0) (get_or values 1 0) }
{
    let memory = named.ok_or(Fault::NotAllowed)?;
    let [size, count] = values;
    if !allowed(memory, size, count) {
        return Err(Fault::NotAllowed);
    }
    Ok(Job {
        memory,
        size: size as u32,
        count: count as u32,
    })
}

// What the value line reads as: its values, or its fault 2, 3 or 4.
pub fn job_line(k: Modulus, line: &Written) -> Result<Job, Fault>
    ensures { task_of result ≡ parse_job (modulus_of k) (as_line line.now) }
{
    let mut values = [0u64; 2];
    let key = fields::sound(k, line, &mut values)?;
    task_of(keys::memory_of(key), values)
}

// What a row line reads as: a row, or its fault 2 or 3.
pub fn input_line(k: Modulus, line: &Written) -> Result<Given, Fault>
    ensures { given_of result ≡ parse_input (modulus_of k) (as_line line.now) }
{
    let mut columns = [0u64; 3];
    let key = fields::sound(k, line, &mut columns)?;
    let [guard, addr, value] = columns;
    Ok(Given {
        op: keys::op_of(key),
        guard,
        addr,
        value,
    })
}

// What line 1 reads as.
#[tactic(auto, unfolding(memory::specs::Names::fill_names, memory::specs::Text::bytes))]
pub fn fill_names_line(line: &Written) -> Result<(), Fault>
    ensures { fault_of result ≡ names_fault fill_names (as_line line.now) }
{
    lines::names_line(&FILL_NAMES, line)
}

// What line 3 reads as.
#[tactic(auto, unfolding(memory::specs::Names::input_names, memory::specs::Text::bytes))]
pub fn input_names_line(line: &Written) -> Result<(), Fault>
    ensures { fault_of result ≡ names_fault input_names (as_line line.now) }
{
    lines::names_line(&INPUT_NAMES, line)
}
