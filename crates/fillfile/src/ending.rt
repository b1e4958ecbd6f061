// The end of input: what the filler's library makes of the rows, and what is printed.
ghost use Rattle.std.specs.Prelude.{◌≡◌, length};
ghost use Rattle.field.specs.Moduli.{modulus_of};
ghost use Rattle.memory.specs.Print.{filled_text};
ghost use Rattle.runs.specs.FillStream.{gathered};
ghost use Rattle.text.specs.Put.{put_of, written};
ghost use Rattle.filler.specs.Answer.{numbered_fill};
ghost use Rattle.fillfile.specs.Ending.{output_rows, answer_text, Ended};

use faults::Refused;
use field::moduli::Modulus;
use runs::Intake;

// Puts the names line and the rows of the output.
fn rows(text: &mut [u8], out: &[u64], count: usize) -> Option<usize>
    ensures answer { result ≡ put_of (length text.old) 0 (filled_text (output_rows count out.now)) }
    ensures slice { text.new ≡ written text.old 0 (filled_text (output_rows count out.now)) }
{
    let mut at = print::row_names(text, 0)?;
    for k in 0..count {
        at = print::filled_row(text, at, out, k)?;
    }
    Some(at)
}

// Puts what the filler's library came to: the rows, or its refusal.
#[tactic(auto, unfolding(crate::specs::Ending::answer_text))]
fn answer(text: &mut [u8], out: &[u64], filled: Result<usize, Refused>) -> Option<usize>
    ensures answer { result ≡ put_of (length text.old) 0 (answer_text (numbered_fill filled) out.now) }
    ensures slice { text.new ≡ written text.old 0 (answer_text (numbered_fill filled) out.now) }
{
    match filled {
        Ok(count) => rows(text, out, count),
        Err(refused) => {
            let place = intake::line_of(refused.place);
            print::refusal(text, 0, u32::from(refused.fault), place)
        }
    }
}

// What is printed after the last line: the fault, or what the filler's library makes of the rows.
#[tactic(auto, unfolding(runs::specs::FillStream::rows_due))]
pub fn finish(
    field: Modulus,
    intake: Intake,
    words: &[u64],
    out: &mut [u64],
    scratch: &mut [u64],
    text: &mut [u8],
) -> Option<usize>
    ensures { Ended (modulus_of field) (gathered intake words.now) out.old out.new scratch.old scratch.new text.old text.new result }
{
    let intake = intake::ended(intake);
    if intake.answer != 0 {
        return print::refusal(text, 0, intake.answer, intake.line);
    }
    let end = (4 * intake::due(intake)).min(words.len());
    let filled = filler::fill(
        field,
        u32::from(intake.memory),
        intake.size,
        intake.count,
        &words[..end],
        out,
        scratch,
    );
    answer(text, &out[..], filled)
}
