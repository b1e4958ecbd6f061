// Standard input, read behind the kept bytes of a lent buffer, and standard output: any reader and
// any writer. What fails says which of the two failed and why. Every function is total.
// Which bytes a read brings, and what becomes of bytes that are written, no contract can say of
// standard input and output. Of a reader and a writer whose bytes are known the contracts say it.
#![tactic(auto)]

ghost use Rattle.std.specs.Prelude.{◌≡◌, ◌+◌, ◌-◌, ◌≤◌, length, take, slice_range, IfOk, OnOk, OnErr};
ghost use Rattle.std.specs.Io.KnownBytes.{Appends, ReadConsumes};
ghost use Rattle.stdio.specs.Read.{read_of, Brings, ReadBehind};
ghost use Rattle.stdio.specs.Write.{IsPartly, Takes, WriteFirst};

pub mod filter;

use std::error::Error;
use std::{fmt, io};

// A program reads its input in blocks of 64 KiB.
pub const BLOCK: usize = 65536;

// Why the input is not read to its end, or the output not all written.
#[derive(Clone, Copy, Debug)]
pub enum Failure {
    // Behind the kept bytes the buffer has no room: nothing is read.
    NoRoom,
    Read(io::Error),
    // The input has not ended after more reads than any run makes.
    Endless,
    // The text is shorter than it should be: nothing is written.
    Short,
    Write(io::Error),
}

impl fmt::Display for Failure {
    fn fmt<W: fmt::Write>(&self, f: &mut fmt::Formatter<W>) -> fmt::Result {
        match self {
            Failure::NoRoom => write!(f, "standard input: no room in the buffer"),
            Failure::Read(e) => write!(f, "standard input: {e}"),
            Failure::Endless => write!(f, "standard input: it does not end"),
            Failure::Short => write!(f, "standard output: the text is too short"),
            Failure::Write(e) => write!(f, "standard output: {e}"),
        }
    }
}

impl Error for Failure {}

// Reads once, a block at most, behind the kept bytes at the front of the buffer, and answers up to
// where the buffer is filled. A read of no bytes is the end of input: there is none. Where the
// buffer has no room behind the kept bytes, nothing is read, and that is a failed read too.
pub fn read_behind<R: io::Read>(
    reader: &mut R,
    buf: &mut [u8],
    kept: usize,
) -> Result<Option<usize>, Failure>
    ensures behind { ReadBehind kept buf.old buf.new result }
    ensures bytes { Brings kept (R.remaining reader.old) (R.remaining reader.new) buf.new result }
{
    if buf.len() <= kept {
        return Err(Failure::NoRoom);
    }
    let end = kept + BLOCK.min(buf.len() - kept);
    let got = read_part(reader, buf, kept, end);
    read_as(got, kept, end)
}

// What the reader's answer comes to, of a read into a buffer from one position up to another.
fn read_as(got: io::Result<usize>, from: usize, end: usize) -> Result<Option<usize>, Failure>
    requires { from ≤ end }
    ensures { result ≡ read_of got from (end - from) }
{
    let n = got.map_err(Failure::Read)?.min(end - from);
    if n == 0 {
        return Ok(None);
    }
    Ok(Some(from + n))
}

// Reads once, into a part of the buffer, and answers as the reader does. What stands before the
// part is as it was.
fn read_part<R: io::Read>(
    reader: &mut R,
    buf: &mut [u8],
    from: usize,
    end: usize,
) -> io::Result<usize>
    requires { (from ≤ end) × (end ≤ length buf.old) }
    ensures front { take from buf.new ≡ take from buf.old }
    ensures room { IfOk result (λ n. n ≤ end - from) }
    ensures bytes { ReadConsumes (R.remaining reader.old) (R.remaining reader.new) result
        (slice_range buf.new from end) }
{
    reader.read(&mut buf[from..end])
}

// Writes the first n bytes of a text, and nothing of a text that is shorter: `KnownWrite` promises
// that of such a text, so the length stands beside it.
pub fn write_first<W: io::Write>(writer: &mut W, text: &[u8], n: usize) -> Result<(), Failure>
    ensures first { WriteFirst (length text.now) n result }
    ensures bytes { Takes n (W.contents writer.old) (W.contents writer.new) text.now result }
{
    if text.len() < n {
        return Err(Failure::Short);
    }
    write_whole(writer, &text[..n]).map_err(Failure::Write)
}

// Writes all of a text, or stops at the first write that takes nothing or fails: then a part of the
// text, from its front, may have been written. (std's `write_all` promises nothing of a failed
// write.)
fn write_whole<W: io::Write>(writer: &mut W, text: &[u8]) -> io::Result<()>
    ensures whole { OnOk result (Appends (W.contents writer.old) (W.contents writer.new) text.now) }
    ensures part { OnErr result (IsPartly (W.contents writer.old) (W.contents writer.new) text.now) }
{
    let mut done = 0;
    while done < text.len() {
        let more = writer.write(&text[done..])?;
        if more == 0 {
            return Err(io::Error::from(io::ErrorKind::WriteZero));
        }
        done += more;
    }
    Ok(())
}
