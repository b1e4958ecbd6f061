// A line as it stands among the bytes that are read.
ghost use Rattle.std.specs.Prelude.{◌<◌, ℕ, slice_index};

// A line of a file: its bytes before the line feed, and whether the line feed is there.
#[derive(Clone, Copy)]
pub struct Written<'a> {
    pub text: &'a [u8],
    pub ended: bool,

    // as of every slice of bytes
    pub ghost bytes: { (i : ℕ) → slice_index text.now i < 256 },
}
