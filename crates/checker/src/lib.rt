// Rows to an answer: the fresh state of a value line, one row, the end of file, and what is printed
// of a state.
#![tactic(auto, unfolding(memory::specs::Step::with_context, memory::specs::Step::take_row, memory::specs::Step::passed_row, memory::specs::Step::fresh_context, memory::specs::Step::fresh_products, memory::specs::Step::fresh_of, crate::specs::Unread::unread_of, memory::specs::Step::take_parsed, memory::specs::Rows::row_below, memory::specs::Step::step_of, memory::specs::Step::end_of, memory::specs::Step::report_of, memory::specs::File::refused, memory::specs::Step::answer_of, memory::specs::Step::lent_step, memory::specs::Step::lent_end, memory::specs::Step::lent_answer,), using(memory::proofs::Fold::lent_ended_answer,),)]

use field::moduli::Modulus;
use memory::faults::Fault;
use memory::{Context, Lent, Products, Report, Row, State, Values};
use rules::counters;

mod state;

ghost use Rattle.std.specs.Prelude.{◌≡◌};
ghost use Rattle.field.specs.Moduli.{modulus_of};
ghost use Rattle.memory.specs.Step.{fresh_of, take_parsed, step_of, end_of, report_of, answer_of, lent_step, lent_end, lent_report, lent_answer};
ghost use Rattle.checker.specs.Unread.{unread_of};

// "The value line makes a fresh state": products start at 1, hashes at 0. Values with a fault make
// a state that has refused.
pub fn fresh(k: Modulus, values: Values) -> State
    ensures { result ≡ fresh_of (modulus_of k) values.memory values.size values.count values.challenge }
{
    let (answer, line) = match values::fault(k, values) {
        Ok(()) => (0, 0),
        Err(fault) => (u32::from(fault), 2),
    };
    State {
        context: Context {
            memory: values.memory,
            size: values.size,
            count: values.count,
            passed: 0,
            pushed: 0,
            popped: 0,
            depths: 1,
            inputs: 0,
            mults: 0,
            answer,
            line,
            ended: false,
        },
        challenge: values.challenge,
        products: Products {
            written: 1,
            read: 1,
            supplied: 1,
            looked: 1,
            enqueued: 0,
            dequeued: 0,
        },
    }
}

// The number of a line that reads as no row: 3, and any other fault counts as 2. It was handed in,
// and may be any number.
fn unread_fault(parsed: Result<Row, u32>) -> u32
    ensures { result ≡ unread_of parsed }
{
    let large = u32::from(Fault::TooLarge);
    match parsed {
        Ok(_) => 0,
        Err(fault) => {
            if fault == large {
                large
            } else {
                u32::from(Fault::Unreadable)
            }
        }
    }
}

// A row that is due, as its line reads. A line that reads as none is refused with its number, on
// the next line; a number of the modulus or more is 3.
fn take(k: Modulus, s: State, parsed: Result<Row, u32>) -> State
    ensures { result ≡ take_parsed (modulus_of k) s parsed }
{
    let Ok(row) = parsed else {
        return state::refuse(s, unread_fault(parsed));
    };
    if !values::below(k, row.numbers()) {
        return state::refuse(s, u32::from(Fault::TooLarge));
    }
    state::take_row(k, s, row)
}

// One row, as its line reads. "a surplus line is 7 without being read". For a line that reads as
// none a caller may hand on any number, and not only that of a `Fault`.
pub fn step(k: Modulus, s: State, parsed: Result<Row, u32>) -> State
    ensures { result ≡ step_of (modulus_of k) s parsed }
{
    if !answers::takes_rows(s.context) {
        return s;
    }
    if due::total(s.context) <= s.context.passed as u64 {
        return state::refuse(s, u32::from(Fault::NotComplete));
    }
    take(k, s, parsed)
}

// The end of file.
pub fn end(s: State) -> State
    ensures { result ≡ end_of s }
{
    if !answers::takes_rows(s.context) {
        return s;
    }
    State {
        context: answers::close(s.context, s.products),
        ..s
    }
}

// A report of these counters.
fn reported(answer: u32, line: u32, inputs: u32, mults: u32) -> Report
    ensures { result ≡ record { answer = answer; line = line; inputs = inputs; mults = mults } }
{
    Report {
        answer: answer as u64,
        line: line as u64,
        inputs: inputs as u64,
        mults: mults as u64,
    }
}

// What is printed of a state: "answer (0 accept), line (0 if accepted), inputs, multiplications (0
// if refused)". A state that still takes rows is an incomplete file.
pub fn report(s: State) -> Report
    ensures { result ≡ report_of s }
{
    if s.context.answer != 0 {
        return reported(s.context.answer, s.context.line, 0, 0);
    }
    if s.context.ended {
        return reported(0, 0, s.context.inputs, s.context.mults);
    }
    let line = counters::raise(s.context.passed, memory::FIRST_LINE as u64);
    reported(u32::from(Fault::NotComplete), line, 0, 0)
}

// What a call on a lent state answers: 0 and 0 where the state still takes rows, and else what is
// printed of it.
pub fn answer(s: State) -> Report
    ensures { result ≡ answer_of s }
{
    if answers::takes_rows(s.context) {
        return reported(0, 0, 0, 0);
    }
    report(s)
}

// A row, the end of file and the answer of a state with its modulus.
fn lent_step(l: Lent, parsed: Result<Row, u32>) -> Lent
    ensures { result ≡ lent_step l parsed }
{
    Lent {
        state: step(l.field, l.state, parsed),
        ..l
    }
}

fn lent_end(l: Lent) -> Lent
    ensures { result ≡ lent_end l }
{
    Lent {
        state: end(l.state),
        ..l
    }
}

fn lent_answer(l: Lent) -> Report
    ensures { result ≡ lent_answer l }
{
    answer(l.state)
}

// "The checker's state is lent and advanced in place by a row." The answer is that of the state
// afterwards: a row that is taken is told from every refusal.
pub fn row_in_place(s: &mut Lent, parsed: Result<Row, u32>) -> Report
    ensures { (s.new ≡ lent_step s.old parsed) × (result ≡ lent_answer (lent_step s.old parsed)) }
{
    let next = lent_step(*s, parsed);
    *s = next;
    lent_answer(next)
}

// The end of file, of a state that is lent. No rows are taken then, so the answer is what is
// printed.
pub fn end_in_place(s: &mut Lent) -> Report
    ensures { (s.new ≡ lent_end s.old) × (result ≡ lent_report (lent_end s.old)) }
{
    let next = lent_end(*s);
    *s = next;
    lent_answer(next)
}
