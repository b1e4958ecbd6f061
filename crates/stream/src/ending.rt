// The end of input: the last line where it is not ended, and what is printed.
ghost use Rattle.std.specs.Prelude.{◌≡◌};
ghost use Rattle.field.specs.Moduli.{modulus_of};
ghost use Rattle.memory.specs.Pieces.{piece};
ghost use Rattle.memory.specs.Step.{report_of};
ghost use Rattle.memory.specs.Stream.{end_report, finish_of};

use field::moduli::Modulus;
use fields::written::Written;
use memory::faults::Fault;
use memory::{Report, Stand, State};

// The state where the lines end: 1 for an empty file, 7 for a missing line 2 or 3. A stand has any
// number for its place.
#[tactic(auto, unfolding(memory::specs::Stream::end_report), using(memory::proofs::Stream::refused_report))]
fn ended(stand: Stand) -> State
    ensures { report_of result ≡ end_report stand }
{
    match stand.place {
        1 => stands::refused(u32::from(Fault::NotNames), 1),
        2 => stands::refused(u32::from(Fault::NotComplete), 2),
        3 if answers::takes_rows(stand.state.context) => {
            stands::refused(u32::from(Fault::NotComplete), 3)
        }
        3 => stand.state,
        _ => checker::end(stand.state),
    }
}

// What is printed where the input ends after some bytes of a line: a line without its line feed is
// a line all the same.
#[tactic(auto, using(crate::proofs::Places::finish_none, crate::proofs::Places::finish_line))]
pub fn report(k: Modulus, stand: Stand, rest: &[u8]) -> Report
    ensures { result ≡ finish_of (modulus_of k) (piece stand rest.now) }
{
    if rest.is_empty() {
        return checker::report(ended(stand));
    }
    let line = Written {
        text: rest,
        ended: false,
    };
    checker::report(ended(stands::line(k, stand, &line)))
}
