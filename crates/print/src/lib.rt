// Answers and rows to bytes: rows, the report and the refusal, put into a lent slice from a
// position on as crate text puts them. Every function is total.
#![tactic(auto)]

ghost use Rattle.std.specs.Prelude.{◌≡◌, ◌<◌, [], ◌∷◌, ◌++◌, length};
ghost use Rattle.memory.specs.Bytes.{feed};
ghost use Rattle.memory.specs.Names.{op_name, row_names};
ghost use Rattle.memory.specs.Print.{numbers_text, row_text, report_text, refusal_text};
ghost use Rattle.text.specs.Put.{put_of, written};
ghost use Rattle.print.specs.Rows.{column_text, columns_text, cell_in, row_in};

use memory::names::{REFUSAL_NAMES, REPORT_NAMES, ROW_NAMES};
use memory::{Op, Report, Row};
use text::{bytes, number};

// Puts a number, with a comma before it.
#[tactic(auto, unfolding(memory::specs::Bytes::comma), using(text::proofs::Written::puts, crate::proofs::Numbers::column_parts))]
fn column(buf: &mut [u8], at: usize, n: u64) -> Option<usize>
    ensures answer { result ≡ put_of (length buf.old) at (column_text n) }
    ensures slice { buf.new ≡ written buf.old at (column_text n) }
{
    let end = bytes(buf, at, b",")?;
    number(buf, end, n)
}

// Puts numbers, a comma before each, and a line feed.
#[tactic(auto, unfolding(memory::specs::Bytes::feed), using(text::proofs::Written::puts, crate::proofs::Numbers::columns_from, crate::proofs::Numbers::columns_over))]
fn columns(buf: &mut [u8], at: usize, ns: &[u64]) -> Option<usize>
    ensures answer { result ≡ put_of (length buf.old) at (columns_text ns.now) }
    ensures slice { buf.new ≡ written buf.old at (columns_text ns.now) }
{
    let mut end = at;
    for n in ns {
        end = column(buf, end, *n)?;
    }
    bytes(buf, end, b"\n")
}

// Puts bytes and a line feed.
#[tactic(auto, unfolding(memory::specs::Bytes::feed), using(text::proofs::Written::puts))]
fn line(buf: &mut [u8], at: usize, text: &[u8]) -> Option<usize>
    ensures answer { result ≡ put_of (length buf.old) at (text.now ++ feed ∷ []) }
    ensures slice { buf.new ≡ written buf.old at (text.now ++ feed ∷ []) }
{
    let end = bytes(buf, at, text)?;
    bytes(buf, end, b"\n")
}

// The name of an op, as the rows have it; the op that is none of document 01's has no name.
#[tactic(auto, unfolding(memory::specs::Names::op_name, memory::specs::Text::bytes))]
fn op_text(op: Op) -> &'static [u8]
    ensures { result.now ≡ op_name op }
{
    match op {
        Op::Init => b"init",
        Op::Access => b"access",
        Op::Look => b"look",
        Op::Member => b"member",
        Op::Push => b"push",
        Op::Pop => b"pop",
        Op::Enqueue => b"enqueue",
        Op::Dequeue => b"dequeue",
        Op::End => b"end",
        Op::Range => b"range",
        Op::Other => b"",
    }
}

// Puts a row as its line.
#[tactic(auto, using(text::proofs::Written::puts, crate::proofs::Texts::row_parts))]
pub fn row(buf: &mut [u8], at: usize, row: Row) -> Option<usize>
    ensures answer { result ≡ put_of (length buf.old) at (row_text row) }
    ensures slice { buf.new ≡ written buf.old at (row_text row) }
{
    let end = bytes(buf, at, op_text(row.op))?;
    columns(buf, end, &row.numbers())
}

// Puts the names line of the rows.
#[tactic(auto, unfolding(memory::specs::Names::row_names, memory::specs::Text::bytes))]
pub fn row_names(buf: &mut [u8], at: usize) -> Option<usize>
    ensures answer { result ≡ put_of (length buf.old) at (row_names ++ feed ∷ []) }
    ensures slice { buf.new ≡ written buf.old at (row_names ++ feed ∷ []) }
{
    line(buf, at, &ROW_NAMES)
}

// Puts a names line and a line of numbers with commas between.
#[tactic(auto, using(text::proofs::Written::puts, crate::proofs::Texts::two_lines))]
fn two_lines(buf: &mut [u8], at: usize, names: &[u8], first: u64, others: &[u64]) -> Option<usize>
    ensures answer { result ≡ put_of (length buf.old) at (names.now ++ feed ∷ numbers_text first others.now) }
    ensures slice { buf.new ≡ written buf.old at (names.now ++ feed ∷ numbers_text first others.now) }
{
    let end = line(buf, at, names)?;
    let end = number(buf, end, first)?;
    columns(buf, end, others)
}

// Puts the two lines of a report.
#[tactic(auto, unfolding(memory::specs::Print::report_text, memory::specs::Names::report_names, memory::specs::Text::bytes))]
pub fn report(buf: &mut [u8], at: usize, report: Report) -> Option<usize>
    ensures answer { result ≡ put_of (length buf.old) at (report_text report) }
    ensures slice { buf.new ≡ written buf.old at (report_text report) }
{
    let others = [report.line, report.inputs, report.mults];
    two_lines(buf, at, &REPORT_NAMES, report.answer, &others)
}

// Puts the two lines of the filler's refusal. The answer is that of an intake, which may be any
// number.
#[tactic(auto, unfolding(memory::specs::Print::refusal_text, memory::specs::Names::refusal_names, memory::specs::Text::bytes))]
pub fn refusal(buf: &mut [u8], at: usize, answer: u32, place: u32) -> Option<usize>
    ensures answer { result ≡ put_of (length buf.old) at (refusal_text answer place) }
    ensures slice { buf.new ≡ written buf.old at (refusal_text answer place) }
{
    two_lines(
        buf,
        at,
        &REFUSAL_NAMES,
        u64::from(answer),
        &[u64::from(place)],
    )
}

// The number in a column of the row at place k of a slice of output rows, 7 numbers a row; 0 where
// there is none.
#[tactic(auto, unfolding(crate::specs::Rows::cell_in))]
fn cell(rows: &[u64], k: usize, column: usize) -> u64
    ensures { result ≡ cell_in rows.now k column }
{
    let place = k.saturating_mul(7).saturating_add(column);
    rows.get(place).copied().unwrap_or(0)
}

// The row at place k of a slice of output rows.
#[tactic(auto, unfolding(crate::specs::Rows::row_in))]
fn row_in(rows: &[u64], k: usize) -> Row
    ensures { result ≡ row_in rows.now k }
{
    Row {
        op: Op::from(cell(rows, k, 0)),
        guard: cell(rows, k, 1),
        addr: cell(rows, k, 2),
        value: cell(rows, k, 3),
        old: cell(rows, k, 4),
        time: cell(rows, k, 5),
        version: cell(rows, k, 6),
    }
}

// Puts the row at place k of a slice of output rows.
pub fn filled_row(buf: &mut [u8], at: usize, rows: &[u64], k: usize) -> Option<usize>
    ensures answer { result ≡ put_of (length buf.old) at (row_text (row_in rows.now k)) }
    ensures slice { buf.new ≡ written buf.old at (row_text (row_in rows.now k)) }
{
    row(buf, at, row_in(rows, k))
}
