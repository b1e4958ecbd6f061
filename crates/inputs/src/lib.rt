// An input row of the filler by its form: 3, 5 and 6 of the numbers, which are tested before 11 to
// 13.
#![tactic(auto)]

ghost use Rattle.std.specs.Prelude.{◌≡◌};
ghost use Rattle.field.specs.Moduli.{modulus_of};
ghost use Rattle.memory.specs.Faults.{fault_of};
ghost use Rattle.memory.specs.Rows.{ops_due};
ghost use Rattle.runs.specs.Filler.{input_fault};
ghost use Rattle.runs.specs.Given.{given_input};

use field::moduli::Modulus;
use memory::faults::Fault;
use memory::{Memory, Phase, Row};
use rules::columns;
use runs::Given;

// The fault of an input row in a phase of a memory by its form.
#[tactic(auto, unfolding(runs::specs::Filler::input_fault))]
pub fn fault(k: Modulus, memory: Memory, phase: Phase, given: Given) -> Result<(), Fault>
    ensures { fault_of result ≡ input_fault (modulus_of k) memory (ops_due memory phase) (given_input given) }
{
    if !values::below(k, [given.guard, given.addr, given.value]) {
        return Err(Fault::TooLarge);
    }
    if !due::takes(memory, phase, given.op) {
        return Err(Fault::NotDue);
    }
    if !columns::formed(memory, Row::from(given)) {
        return Err(Fault::NotFormed);
    }
    Ok(())
}
