// The filling program's library: from the bytes of its input, read in pieces, to the bytes that it
// prints. Section "The filler" of document 01.
// A caller keeps one buffer for the input and one for the words of the rows: `start`, then for each
// block `advance`, and `finish` at the end of input.
#![tactic(auto)]

use field::moduli::Modulus;
use pieces::Progress;
use runs::Intake;

mod ending;

ghost use Rattle.std.specs.Prelude.{◌≡◌, length};
ghost use Rattle.field.specs.Moduli.{modulus_of};
ghost use Rattle.runs.specs.FillFile.{fill_text};
ghost use Rattle.runs.specs.FillStream.{gathered, line_taken};
ghost use Rattle.pieces.specs.Calls.{Advanced};
ghost use Rattle.text.specs.Put.{put_of, written};
ghost use Rattle.fillfile.specs.Progress.{begun, left_by};
ghost use Rattle.fillfile.specs.Ending.{Finished};

// "The filling program takes size and count up to 128".
const LIMIT: usize = fill_lines::LIMIT as usize;

// The words that the program lends: 4 for each row of its input,
pub const WORDS: usize = 4 * (LIMIT + LIMIT);

// "room for 2n + 3T output rows and 2n + 3T scratch words", 7 words to a row,
pub const OUTPUT: usize = 7 * SCRATCH;

pub const SCRATCH: usize = 2 * LIMIT + 3 * LIMIT;

// and the most bytes that it prints (runs `FillTextShort`).
pub const TEXT: usize = 85797;

// Before the first byte.
#[tactic(auto, unfolding(crate::specs::Progress::begun, runs::specs::FillStream::untaken))]
pub fn start(field: Modulus) -> Progress<Intake>
    ensures progress { result ≡ begun field }
    ensures field { result.field ≡ field }
{
    Progress {
        field,
        known: Intake {
            place: 1,
            memory: memory::Memory::Ram,
            size: 0,
            count: 0,
            passed: 0,
            answer: 0,
            line: 0,
        },
        kept: 0,
    }
}

// The filled part of the buffer, which begins with the kept bytes: its whole lines are read, and
// the unfinished line after them is moved to the front, as far as it is kept. The bytes of the
// buffer behind it are as they were. A part that would end past the buffer ends with it. The rows
// go into the words.
pub fn advance(
    progress: Progress<Intake>,
    buf: &mut [u8],
    filled: usize,
    words: &mut [u64],
) -> Progress<Intake>
    ensures lines { Advanced (line_taken (modulus_of progress.field)) (gathered progress.known words.old) filled buf.old (left_by result words.new buf.new) }
    ensures field { result.field ≡ progress.field }
{
    let field = progress.field;
    let end = filled.min(buf.len());
    let taken = intake::lines_in(field, progress.known, &buf[..end], words);
    let kept = pieces::keep(buf, taken.used, end);
    Progress {
        field,
        known: taken.known,
        kept,
    }
}

// The end of input, with the kept bytes at the front of the buffer: what the program prints goes
// into the text. Free is what is printed where the caller lends less than `fill` does: the
// library's 7, 14 or 15 on line 3, for too few words, too little output or too little scratch; and
// its 4, for a size or count that no value line has.
pub fn finish(
    progress: Progress<Intake>,
    buf: &[u8],
    words: &mut [u64],
    out: &mut [u64],
    scratch: &mut [u64],
    text: &mut [u8],
) -> Option<usize>
    ensures { Finished (modulus_of progress.field) (left_by progress words.old buf.now) words.new out.old out.new scratch.old scratch.new text.old text.new result }
{
    let field = progress.field;
    let end = progress.kept.min(buf.len());
    let intake = intake::last(field, progress.known, &buf[..end], words);
    ending::finish(field, intake, &words[..], out, scratch, text)
}

// What is printed for a whole input; the program prints that modulo p.
pub fn fill_file(field: Modulus, input: &[u8], text: &mut [u8]) -> Option<usize>
    ensures answer { result ≡ put_of (length text.old) 0 (fill_text (modulus_of field) input.now) }
    ensures slice { text.new ≡ written text.old 0 (fill_text (modulus_of field) input.now) }
{
    let mut words = [0u64; WORDS];
    let mut out = [0u64; OUTPUT];
    let mut scratch = [0u64; SCRATCH];
    let begun = start(field);
    let taken = intake::lines_in(field, begun.known, input, &mut words);
    let used = taken.used;
    let intake = intake::last(field, taken.known, &input[used..], &mut words);
    ending::finish(field, intake, &words, &mut out, &mut scratch, text)
}

// The same with a text of as many bytes as `fill` lends: it always has room for it.
#[tactic(auto, using(text::proofs::Written::put_at_start, runs::proofs::FillLength::fill_text_short))]
pub fn fill_whole(field: Modulus, input: &[u8], text: &mut [u8; TEXT]) -> Option<usize>
    ensures answer { result ≡ put_of (length text.old) 0 (fill_text (modulus_of field) input.now) }
    ensures slice { text.new ≡ written text.old 0 (fill_text (modulus_of field) input.now) }
    ensures room { result ≡ Some (length (fill_text (modulus_of field) input.now)) }
    ensures many { length text.new ≡ length text.old }
{
    fill_file(field, input, text)
}
