// A word of a cell: where its content comes from, and its time. No content stands in it: source 0
// is the cell's init row, and source k + 1 is operation k. The scratch words are lent numbers, and
// their first value is 0: a source is a number too.
ghost use Rattle.std.specs.Prelude.{◌≡◌};
ghost use Rattle.words.specs.Cells.{packed, cell_in, content_in};

// A source is below this, and so is a time.
const SPAN: u64 = 131072;

#[derive(Clone, Copy)]
pub struct Cell {
    pub source: u64,
    pub time: u64,
}

// The word of a source and a time.
impl From<Cell> for u64 {
    ghost from_gives = { λ cell word. word ≡ packed cell.source cell.time };

    #[tactic(auto, unfolding(crate::specs::Cells::packed, crate::specs::Cells::span))]
    fn from(cell: Cell) -> u64 {
        cell.source % SPAN * SPAN + cell.time % SPAN
    }
}

// The source and the time in a word.
impl From<u64> for Cell {
    ghost from_gives = { λ word cell. cell ≡ cell_in word };

    #[tactic(auto, unfolding(crate::specs::Cells::source_in, crate::specs::Cells::time_in, crate::specs::Cells::span))]
    fn from(word: u64) -> Cell {
        Cell {
            source: word / SPAN,
            time: word % SPAN,
        }
    }
}

// The content of a cell, by its word: the value of its init row, or of the operation that brought
// it.
#[tactic(auto, unfolding(crate::specs::Cells::content_in))]
pub fn content(cell: usize, word: u64, inits: &[u64], ops: &[u64]) -> u64
    ensures { result ≡ content_in inits.now ops.now cell word }
{
    match Cell::from(word).source {
        0 => super::value(inits, cell),
        source => super::value(ops, (source - 1) as usize),
    }
}
