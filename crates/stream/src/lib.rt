// A file in pieces, and whole. A caller that reads a file block by block keeps one buffer: `start`,
// then for each block `advance`, and at the end of input `finish`, or `print_end` for the two lines
// that `check` prints.
#![tactic(auto)]

use field::moduli::Modulus;
use memory::faults::Fault;
use memory::{Report, Stand};
use pieces::Progress;

mod block;
mod ending;

ghost use Rattle.std.specs.Prelude.{◌≡◌, length};
ghost use Rattle.field.specs.Moduli.{modulus_of};
ghost use Rattle.memory.specs.File.{file_report};
ghost use Rattle.memory.specs.Print.{report_text};
ghost use Rattle.memory.specs.Stream.{line_of, finish_of};
ghost use Rattle.pieces.specs.Calls.{stands_for, Advanced};
ghost use Rattle.text.specs.Put.{put_of, written};
ghost use Rattle.stream.specs.Progress.{begun, left_by};

// Before the first byte.
#[tactic(auto, unfolding(crate::specs::Progress::begun, memory::specs::Stream::unopened, memory::specs::Stream::stand))]
pub fn start(field: Modulus) -> Progress<Stand>
    ensures progress { result ≡ begun field }
    ensures field { result.field ≡ field }
{
    Progress {
        field,
        known: Stand {
            place: 1,
            state: stands::refused(u32::from(Fault::NotNames), 1),
        },
        kept: 0,
    }
}

// The filled part of the buffer, which begins with the kept bytes: its whole lines are handed to
// the checker, and the unfinished line after them is moved to the front, as far as it is kept. The
// bytes of the buffer behind it are as they were. A part that would end past the buffer ends with
// it.
pub fn advance(progress: Progress<Stand>, buf: &mut [u8], filled: usize) -> Progress<Stand>
    ensures lines { Advanced (line_of (modulus_of progress.field)) progress.known filled buf.old (left_by result buf.new) }
    ensures field { result.field ≡ progress.field }
{
    let field = progress.field;
    let end = filled.min(buf.len());
    let taken = block::lines_in(field, progress.known, &buf[..end]);
    let kept = pieces::keep(buf, taken.used, end);
    Progress {
        field,
        known: taken.known,
        kept,
    }
}

// The end of input, with the kept bytes at the front of the buffer.
#[tactic(auto, unfolding(crate::specs::Progress::left_by, pieces::specs::Calls::stands_for), using(std::proofs::lemmas::List::take_min))]
pub fn finish(progress: Progress<Stand>, buf: &[u8]) -> Report
    ensures { result ≡ finish_of (modulus_of progress.field) (stands_for (left_by progress buf.now)) }
{
    let field = progress.field;
    let end = progress.kept.min(buf.len());
    ending::report(field, progress.known, &buf[..end])
}

// The end of input, in the same way: the two lines that `check` prints go into the text.
pub fn print_end(progress: Progress<Stand>, buf: &[u8], text: &mut [u8]) -> Option<usize>
    ensures answer { result ≡ put_of (length text.old) 0 (report_text (finish_of (modulus_of progress.field) (stands_for (left_by progress buf.now)))) }
    ensures slice { text.new ≡ written text.old 0 (report_text (finish_of (modulus_of progress.field) (stands_for (left_by progress buf.now)))) }
{
    print::report(text, 0, finish(progress, buf))
}

// The most bytes that `check` prints (memory `ReportShort`).
pub const TEXT: usize = 109;

// The same with a text of that many bytes: it always has room for them.
#[tactic(auto, using(text::proofs::Written::put_at_start, memory::proofs::ReportLength::report_short))]
pub fn print_whole(progress: Progress<Stand>, buf: &[u8], text: &mut [u8; TEXT]) -> Option<usize>
    ensures answer { result ≡ put_of (length text.old) 0 (report_text (finish_of (modulus_of progress.field) (stands_for (left_by progress buf.now)))) }
    ensures slice { text.new ≡ written text.old 0 (report_text (finish_of (modulus_of progress.field) (stands_for (left_by progress buf.now)))) }
    ensures room { result ≡ Some (length (report_text (finish_of (modulus_of progress.field) (stands_for (left_by progress buf.now))))) }
    ensures many { length text.new ≡ length text.old }
{
    print_end(progress, buf, text)
}

// What is reported of a whole file; `check` reports that modulo p.
pub fn check_file(field: Modulus, file: &[u8]) -> Report
    ensures { result ≡ file_report (modulus_of field) file.now }
{
    let begun = start(field);
    let taken = block::lines_in(field, begun.known, file);
    let used = taken.used;
    ending::report(field, taken.known, &file[used..])
}
