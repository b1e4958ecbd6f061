// The filling program's input, line by line, from the bytes of a block to an intake and the words
// of its rows. Section "The filler" of document 01.
#![tactic(auto)]

use field::moduli::Modulus;
use fields::written::Written;
use memory::HEAD_LINES;
use memory::faults::Fault;
use pieces::Taken;
use rules::counters;
use runs::Intake;

mod line;

ghost use Rattle.std.specs.Prelude.{◌≡◌};
ghost use Rattle.field.specs.Moduli.{modulus_of};
ghost use Rattle.memory.specs.File.{head_lines};
ghost use Rattle.memory.specs.Step.{raise};
ghost use Rattle.memory.specs.Pieces.{last_in};
ghost use Rattle.runs.specs.FillStream.{gathered, rows_due, line_taken, end_taken};
ghost use Rattle.pieces.specs.Block.{LinesTaken};

// How many rows are due.
#[tactic(auto, unfolding(runs::specs::FillStream::rows_due))]
pub fn due(intake: Intake) -> usize
    ensures { result ≡ rows_due intake }
{
    intake.size as usize + intake.count as usize
}

// "row k being line k + 3"
#[tactic(auto, unfolding(memory::specs::Step::top, memory::specs::Step::raise))]
pub fn line_of(place: usize) -> u32
    ensures { result ≡ raise place head_lines }
{
    counters::raise(HEAD_LINES, place as u64)
}

// Every whole line of a block, each as a part of the block: from one line feed to the next, so that
// nothing is counted. The loop stands in crates stream and intake: as one loop over a trait it
// proves, but `check` then executes 6 % more instructions.
#[tactic(auto, using(pieces::proofs::Feeds::feed_some))]
pub fn lines_in(
    field: Modulus,
    mut intake: Intake,
    block: &[u8],
    words: &mut [u64],
) -> Taken<Intake>
    ensures { LinesTaken (line_taken (modulus_of field)) (gathered intake words.old) block.now (gathered result.known words.new) result.used }
{
    let mut used = 0;
    while let Some(at) = pieces::feed_from(block, used) {
        let written = Written {
            text: &block[used..at],
            ended: true,
        };
        intake = line::line(field, intake, &written, words);
        used = at + 1;
    }
    Taken {
        known: intake,
        used,
    }
}

// The last line: one without its line feed is a line all the same.
#[tactic(auto, using(pieces::proofs::Calls::last_none, pieces::proofs::Calls::last_some))]
pub fn last(field: Modulus, intake: Intake, rest: &[u8], words: &mut [u64]) -> Intake
    ensures { gathered result words.new ≡ last_in (line_taken (modulus_of field)) (gathered intake words.old) rest.now }
{
    if rest.is_empty() {
        return intake;
    }
    let written = Written {
        text: rest,
        ended: false,
    };
    line::line(field, intake, &written, words)
}

// Where the lines end: 1 for an empty input, 7 for a missing line 2 or 3 and for a missing row. An
// intake has any number for its place.
#[tactic(auto, unfolding(runs::specs::FillStream::end_taken, runs::specs::FillStream::end_fault))]
pub fn ended(intake: Intake) -> Intake
    ensures { result ≡ end_taken intake }
{
    if intake.answer != 0 {
        return intake;
    }
    let place = intake.place;
    match place {
        1 => line::refuse(intake, u32::from(Fault::NotNames), 1),
        2 => line::refuse(intake, u32::from(Fault::NotComplete), 2),
        3 => line::refuse(intake, u32::from(Fault::NotComplete), 3),
        _ => {
            if (intake.passed as usize) < due(intake) {
                line::refuse_row(intake, u32::from(Fault::NotComplete))
            } else {
                intake
            }
        }
    }
}
