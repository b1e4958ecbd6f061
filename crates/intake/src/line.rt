// One whole line of the filling program's input: line 1, the value line, line 3, and the rows.
ghost use Rattle.std.specs.Prelude.{◌≡◌, ◌<◌, Ok};
ghost use Rattle.field.specs.Moduli.{modulus_of};
ghost use Rattle.memory.specs.Faults.{fault_of};
ghost use Rattle.memory.specs.File.{first_line};
ghost use Rattle.runs.specs.FillFile.{parse_job, input_line_fault};
ghost use Rattle.runs.specs.FillStream.{gathered, refuse_on, names_taken, job_taken, refuse_row, input_taken, row_taken, line_taken, stored_at};
ghost use Rattle.runs.specs.Given.{given_input};
ghost use Rattle.fields.specs.Written.{as_line};
ghost use Rattle.fill_lines.specs.Answers.{given_of};

use super::due;
use field::moduli::Modulus;
use fields::written::Written;
use memory::faults::{Fault, number};
use memory::{FIRST_LINE, Phase};
use rules::counters;
use runs::{Given, Intake};
use words::Input;

// A fault on a line, by its number, as in an intake.
#[tactic(auto, unfolding(runs::specs::FillStream::refuse_on))]
pub fn refuse(intake: Intake, answer: u32, line: u32) -> Intake
    ensures { result ≡ refuse_on intake answer line }
{
    Intake {
        answer,
        line,
        ..intake
    }
}

// A fault of the next row, which stands on line passed + 4.
#[tactic(auto, unfolding(runs::specs::FillStream::refuse_row))]
pub fn refuse_row(intake: Intake, answer: u32) -> Intake
    ensures { result ≡ refuse_row intake answer }
{
    let line = counters::raise(intake.passed, FIRST_LINE as u64);
    refuse(intake, answer, line)
}

// A names line by what it reads as.
#[tactic(auto, unfolding(runs::specs::FillStream::names_taken, runs::specs::FillStream::move_to))]
fn named(intake: Intake, place: u32, read: Result<(), Fault>) -> Intake
    requires { place < first_line }
    ensures { result ≡ names_taken intake place (fault_of read) }
{
    let Ok(()) = read else {
        return refuse(intake, number(&read), place);
    };
    Intake {
        place: place + 1,
        ..intake
    }
}

// The value line: its values, or refused with its number on line 2.
#[tactic(auto, unfolding(runs::specs::FillStream::job_taken, fill_lines::specs::Answers::task_of))]
fn opened(field: Modulus, intake: Intake, line: &Written) -> Intake
    ensures { result ≡ job_taken intake (parse_job (modulus_of field) (as_line line.now)) }
{
    let read = fill_lines::job_line(field, line);
    let Ok(job) = read else {
        return refuse(intake, number(&read), 2);
    };
    Intake {
        place: 3,
        memory: job.memory,
        size: job.size,
        count: job.count,
        passed: 0,
        answer: 0,
        line: 0,
    }
}

// 3, 5 and 6 of the next row.
#[tactic(auto, unfolding(runs::specs::FillFile::input_line_fault, fill_lines::specs::Answers::given_of))]
fn fault(field: Modulus, intake: Intake, row: Given) -> Result<(), Fault>
    ensures { fault_of result ≡ input_line_fault (modulus_of field) intake.memory intake.size intake.passed (given_of (Ok row)) }
{
    let memory = intake.memory;
    let phase = if intake.passed < intake.size {
        Phase::Starting
    } else {
        Phase::Operating
    };
    inputs::fault(field, memory, phase, row)
}

// Writes row k.
#[tactic(auto, unfolding(runs::specs::FillStream::stored_at))]
fn store_row(words: &mut [u64], k: u32, row: Given)
    ensures { words.new ≡ stored_at words.old k (given_input row) }
{
    words::write(k as usize, Input::from(row), words);
}

// A row that is due: it is stored, or its fault is the refusal.
#[tactic(auto, unfolding(runs::specs::FillStream::input_taken, runs::specs::FillStream::gathered, runs::specs::FillStream::pass_row, fill_lines::specs::Answers::given_of))]
fn take(field: Modulus, intake: Intake, row: Given, words: &mut [u64]) -> Intake
    ensures { gathered result words.new ≡ input_taken (modulus_of field) (gathered intake words.old) (given_of (Ok row)) }
{
    let fault = fault(field, intake, row);
    let Ok(()) = fault else {
        return refuse_row(intake, number(&fault));
    };
    store_row(words, intake.passed, row);
    Intake {
        passed: counters::raise(intake.passed, 1),
        ..intake
    }
}

// A row line; a surplus one is 7.
#[tactic(auto, unfolding(runs::specs::FillStream::row_taken, runs::specs::FillStream::input_taken, runs::specs::FillStream::gathered, fill_lines::specs::Answers::given_of))]
fn row(field: Modulus, intake: Intake, line: &Written, words: &mut [u64]) -> Intake
    ensures { gathered result words.new ≡ row_taken (modulus_of field) (gathered intake words.old) (as_line line.now) }
{
    if due(intake) <= intake.passed as usize {
        return refuse_row(intake, u32::from(Fault::NotComplete));
    }
    let read = fill_lines::input_line(field, line);
    let Ok(row) = read else {
        return refuse_row(intake, number(&read));
    };
    take(field, intake, row, words)
}

// Any line: after a fault nothing is read. An intake has any number for its place, and every place
// from 4 on is that of the rows.
#[tactic(auto, unfolding(runs::specs::FillStream::line_taken, runs::specs::FillStream::open_line, runs::specs::FillStream::gathered))]
pub fn line(field: Modulus, intake: Intake, line: &Written, words: &mut [u64]) -> Intake
    ensures { gathered result words.new ≡ line_taken (modulus_of field) (gathered intake words.old) (as_line line.now) }
{
    if intake.answer != 0 {
        return intake;
    }
    let place = intake.place;
    match place {
        1 => named(intake, 1, fill_lines::fill_names_line(line)),
        2 => opened(field, intake, line),
        3 => named(intake, 3, fill_lines::input_names_line(line)),
        _ => row(field, intake, line, words),
    }
}
