// The program `fill`: reads standard input to its end and prints the filled file from line 3 on, or
// a refusal. A failed read is told on standard error, with nothing on standard output; so is a
// failed write.
#![tactic(auto)]

ghost use Rattle.field.specs.Field.{p};
ghost use Rattle.runs.specs.FillFile.{fill_text};
ghost use Rattle.fill_program.specs.Run.{Fills, HasTaken};

use field::moduli::Modulus;
use pieces::Progress;
use runs::Intake;
use std::io;
use stdio::Failure;
use stdio::filter::{self, Filter};

// What takes the input modulo p, with the words of its rows, and prints what the library puts into
// the text.
#[derive(Drop)]
struct Fill {
    progress: Progress<Intake>,
    words: [u64; fillfile::WORDS],
}

impl Filter for Fill {
    ghost printed = { fill_text p };

    ghost kept = { λ fill. fill.progress.kept };

    ghost has_taken = { λ fill. HasTaken fill.progress fill.words };

    fn kept(&self) -> usize {
        self.progress.kept
    }

    fn advance(&mut self, buf: &mut [u8], filled: usize) {
        self.progress = fillfile::advance(self.progress, buf, filled, &mut self.words);
    }

    fn print_end<W: io::Write>(&mut self, output: &mut W, buf: &[u8]) -> Result<(), Failure> {
        let mut out = [0u64; fillfile::OUTPUT];
        let mut scratch = [0u64; fillfile::SCRATCH];
        let mut text = [0u8; fillfile::TEXT];
        let words = &mut self.words;
        let end = fillfile::finish(
            self.progress,
            buf,
            words,
            &mut out,
            &mut scratch,
            &mut text,
        ).ok_or(Failure::Short)?;
        stdio::write_first(output, &text, end)
    }
}

// Reads to the end of input and prints.
fn run<R: io::Read, W: io::Write>(
    input: &mut R,
    output: &mut W,
    buf: &mut [u8],
) -> Result<(), Failure>
    ensures { Fills (R.remaining input.old) (W.contents output.old) (W.contents output.new) result }
{
    let mut fill = Fill {
        progress: fillfile::start(Modulus::M31),
        words: [0; fillfile::WORDS],
    };
    filter::run(&mut fill, input, output, buf)
}

fn main(rt: HostRuntime) {
    let mut buf = [0u8; pieces::KEPT + stdio::BLOCK];
    if let Err(e) = run(&mut rt.stdin(), &mut rt.stdout(), &mut buf) {
        let _ = eprintln!(rt; "{e}");
    }
}
