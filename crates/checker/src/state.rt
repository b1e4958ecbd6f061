// The state of a checker after a row that is due: refused, or with its factors multiplied in.
ghost use Rattle.std.specs.Prelude.{◌≡◌};
ghost use Rattle.field.specs.Moduli.{modulus_of};
ghost use Rattle.memory.specs.Step.{refuse_next, with_context, take_row};

use field::moduli::Modulus;
use memory::{Row, State};

// A refusal on the line of the next row, by a number, as in a state.
pub(crate) fn refuse(s: State, fault: u32) -> State
    ensures { result ≡ with_context s (refuse_next s.context fault) }
{
    State {
        context: answers::refuse_next(s.context, fault),
        ..s
    }
}

// A row that is due: it passes, or its fault is the refusal.
pub(crate) fn take_row(k: Modulus, s: State, row: Row) -> State
    ensures { result ≡ take_row (modulus_of k) s row }
{
    let judged = passing::judge(k, s.context, row);
    if let Err(fault) = judged.fault {
        return refuse(s, u32::from(fault));
    }
    State {
        context: judged.next,
        products: factors::multiply(k, s.challenge, s.context, row, s.products),
        ..s
    }
}
