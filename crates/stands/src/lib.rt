// One whole line of a file: line 1, the value line, line 3, and the rows.
#![tactic(auto)]

ghost use Rattle.std.specs.Prelude.{◌≡◌, ◌<◌};
ghost use Rattle.field.specs.Moduli.{modulus_of};
ghost use Rattle.memory.specs.Faults.{fault_of};
ghost use Rattle.memory.specs.File.{first_line, parse_values};
ghost use Rattle.memory.specs.Step.{refused_state, opened_of};
ghost use Rattle.memory.specs.Stream.{names_read, row_names_read, line_of};
ghost use Rattle.fields.specs.Written.{as_line};

use field::moduli::Modulus;
use fields::written::Written;
use memory::faults::{Fault, number};
use memory::{Challenge, Context, FIRST_LINE, Memory, Stand, State, Values};

// A state that has refused a line before the rows: a fresh one of size and count 0, with answer and
// line set, which are numbers in a state.
#[tactic(auto, unfolding(memory::specs::Step::refused_state, memory::specs::Step::refuse_at, memory::specs::Step::fresh_context, memory::specs::Step::fresh_of))]
pub fn refused(answer: u32, line: u32) -> State
    ensures { result ≡ refused_state answer line }
{
    let none = Values {
        memory: Memory::Ram,
        size: 0,
        count: 0,
        challenge: Challenge::default(),
    };
    let fresh = checker::fresh(Modulus::M31, none);
    State {
        context: Context {
            answer,
            line,
            ..fresh.context
        },
        ..fresh
    }
}

// A names line by what it reads as: the next line follows, or the file is refused on this one.
#[tactic(auto, unfolding(memory::specs::Stream::names_read, memory::specs::Stream::stand))]
fn named(place: u32, state: State, read: Result<(), Fault>) -> Stand
    requires { place < first_line }
    ensures { result ≡ names_read place state (fault_of read) }
{
    let Ok(()) = read else {
        return Stand {
            place: FIRST_LINE,
            state: refused(number(&read), place),
        };
    };
    Stand {
        place: place + 1,
        state,
    }
}

// The state that the value line makes: fresh, or refused with its number on line 2.
#[tactic(auto, unfolding(memory::specs::Step::opened_of, lines::specs::Answers::opening_of))]
fn opened(k: Modulus, line: &Written) -> State
    ensures { result ≡ opened_of (modulus_of k) (parse_values (modulus_of k) (as_line line.now)) }
{
    let read = lines::value_line(k, line);
    let Ok(values) = read else {
        return refused(number(&read), 2);
    };
    checker::fresh(k, values)
}

// Line 3: where the value line was refused, the file keeps that answer.
#[tactic(auto, unfolding(memory::specs::Stream::row_names_read, memory::specs::Stream::stand))]
fn row_names(state: State, line: &Written) -> Stand
    ensures { result ≡ row_names_read state (as_line line.now) }
{
    if !answers::takes_rows(state.context) {
        return Stand {
            place: FIRST_LINE,
            state,
        };
    }
    named(3, state, lines::row_names_line(line))
}

// Any line. A stand has any number for its place, and every place from 4 on is that of the rows.
#[tactic(auto, unfolding(memory::specs::Stream::line_of, memory::specs::Step::row_of, memory::specs::Stream::stand))]
pub fn line(k: Modulus, stand: Stand, line: &Written) -> Stand
    ensures { result ≡ line_of (modulus_of k) stand (as_line line.now) }
{
    let place = stand.place;
    match place {
        1 => named(1, stand.state, lines::value_names_line(line)),
        2 => Stand {
            place: 3,
            state: opened(k, line),
        },
        3 => row_names(stand.state, line),
        _ => Stand {
            place: FIRST_LINE,
            state: checker::step(k, stand.state, lines::row_line(k, line).map_err(u32::from)),
        },
    }
}
