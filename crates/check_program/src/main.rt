// The program `check`: reads standard input to its end and prints the two lines of the report. A
// failed read is told on standard error, with nothing on standard output; so is a failed write.
#![tactic(auto)]

ghost use Rattle.field.specs.Field.{p};
ghost use Rattle.memory.specs.File.{file_report};
ghost use Rattle.memory.specs.Print.{report_text};
ghost use Rattle.check_program.specs.Run.{Checks, HasTaken};

use field::moduli::Modulus;
use memory::Stand;
use pieces::Progress;
use std::io;
use stdio::Failure;
use stdio::filter::{self, Filter};

// What takes the file modulo p and prints the two lines.
#[derive(Drop)]
struct Check {
    progress: Progress<Stand>,
}

impl Filter for Check {
    ghost printed = { λ file. report_text (file_report p file) };

    ghost kept = { λ check. check.progress.kept };

    ghost has_taken = { λ check. HasTaken check.progress };

    fn kept(&self) -> usize {
        self.progress.kept
    }

    fn advance(&mut self, buf: &mut [u8], filled: usize) {
        self.progress = stream::advance(self.progress, buf, filled);
    }

    fn print_end<W: io::Write>(&mut self, output: &mut W, buf: &[u8]) -> Result<(), Failure> {
        let mut text = [0u8; stream::TEXT];
        let end = stream::print_whole(self.progress, buf, &mut text).unwrap();
        stdio::write_first(output, &text, end)
    }
}

// Reads to the end of input and prints the report.
fn run<R: io::Read, W: io::Write>(
    input: &mut R,
    output: &mut W,
    buf: &mut [u8],
) -> Result<(), Failure>
    ensures { Checks (R.remaining input.old) (W.contents output.old) (W.contents output.new) result }
{
    let mut check = Check {
        progress: stream::start(Modulus::M31),
    };
    filter::run(&mut check, input, output, buf)
}

fn main(rt: HostRuntime) {
    let mut buf = [0u8; pieces::KEPT + stdio::BLOCK];
    if let Err(e) = run(&mut rt.stdin(), &mut rt.stdout(), &mut buf) {
        let _ = eprintln!(rt; "{e}");
    }
}
