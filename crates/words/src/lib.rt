// Rows in slices of words: 4 words an input row of the filler, 7 words an output row. Every
// function is total: past the end of a slice a word reads as 0, and nothing is written. Module
// cells has the words of cells, and module counts those of keys.
#![tactic(auto)]

pub mod cells;
pub mod counts;

ghost use Rattle.std.specs.Prelude.{◌≡◌, [], ◌∷◌, ◌*◌, ◌≤◌, length, get_or, set, replicate};
ghost use Rattle.std.proofs.lemmas.List.Edits.{sets};
ghost use Rattle.runs.specs.Given.{given_input};
ghost use Rattle.words.specs.Inputs.{words_at, value_at, input_of, words_of};

use memory::Op;
use runs::Given;

// Every word becomes 0.
pub fn clear(words: &mut [u64])
    ensures { words.new ≡ replicate (length words.old) 0 }
{
    words.fill(0);
}

// Every word of both becomes 0: "whole output and scratch 0".
pub fn clear_both(out: &mut [u64], scratch: &mut [u64])
    ensures output { out.new ≡ replicate (length out.old) 0 }
    ensures scratch { scratch.new ≡ replicate (length scratch.old) 0 }
{
    clear(out);
    clear(scratch);
}

// The word at a place.
pub fn word(words: &[u64], at: usize) -> u64
    ensures { result ≡ get_or words.now at 0 }
{
    words.get(at).copied().unwrap_or(0)
}

// Writes a word at a place. (By `get_mut` it does not prove: std says nothing of the slice then.)
pub fn store(words: &mut [u64], at: usize, word: u64)
    ensures { words.new ≡ set words.old at word }
{
    if at < words.len() {
        words[at] = word;
    }
}

// The words of an input row, in the columns `op,guard,addr,value`: "rows are lent slices of
// numbers", so op and guard are numbers too.
#[derive(Clone, Copy, Default)]
pub struct Input {
    pub op: u64,
    pub guard: u64,
    pub addr: u64,
    pub value: u64,
}

// The words of an input row.
impl From<Given> for Input {
    ghost from_gives = { λ given words. words ≡ words_of given };

    fn from(given: Given) -> Input {
        Input {
            op: u64::from(given.op),
            guard: given.guard,
            addr: given.addr,
            value: given.value,
        }
    }
}

// The input row that four words stand for.
impl From<Input> for Given {
    ghost from_gives = { λ words given. given_input given ≡ input_of words };

    fn from(words: Input) -> Given {
        Given {
            op: Op::from(words.op),
            guard: words.guard,
            addr: words.addr,
            value: words.value,
        }
    }
}

// The words of an output row that an input row does not have, in the columns `old,time,version`:
// "All else in the rows is advice." A column that holds none is 0.
#[derive(Clone, Copy, Default)]
pub struct Advice {
    pub old: u64,
    pub time: u64,
    pub version: u64,
}

// Reads input row k. A whole row takes one test.
pub fn read(rows: &[u64], k: usize) -> Input
    ensures { result ≡ words_at rows.now k }
{
    if k < rows.len() / 4 {
        let at = 4 * k;
        return Input {
            op: rows[at],
            guard: rows[at + 1],
            addr: rows[at + 2],
            value: rows[at + 3],
        };
    }
    let at = 4 * k.min(rows.len());
    Input {
        op: word(rows, at),
        guard: word(rows, at + 1),
        addr: word(rows, at + 2),
        value: word(rows, at + 3),
    }
}

// The value of input row k.
pub fn value(rows: &[u64], k: usize) -> u64
    ensures { result ≡ value_at rows.now k }
{
    let row = read(rows, k);
    row.value
}

// Writes the four words of an input row, from a place on: those of its own row, or the first four
// of an output row, as "op, guard, addr and value are copied".
fn put_input(at: usize, row: Input, words: &mut [u64])
    requires { at ≤ 7 * length words.old }
    ensures { words.new ≡ sets words.old at (row.op ∷ row.guard ∷ row.addr ∷ row.value ∷ []) }
{
    store(words, at, row.op);
    store(words, at + 1, row.guard);
    store(words, at + 2, row.addr);
    store(words, at + 3, row.value);
}

// Writes input row k.
pub fn write(k: usize, row: Input, words: &mut [u64])
    ensures { words.new ≡ sets words.old (4 * k) (row.op ∷ row.guard ∷ row.addr ∷ row.value ∷ []) }
{
    if words.len() <= k {
        return;
    }
    put_input(4 * k, row, words);
}

// The advice: the last three words of an output row, from a place on.
fn put_advice(at: usize, advice: Advice, out: &mut [u64])
    requires { at ≤ 7 * length out.old }
    ensures { out.new ≡ sets out.old at (advice.old ∷ advice.time ∷ advice.version ∷ []) }
{
    store(out, at, advice.old);
    store(out, at + 1, advice.time);
    store(out, at + 2, advice.version);
}

// Writes output row k: an input row, and the advice that it gets.
pub fn put(k: usize, row: Input, advice: Advice, out: &mut [u64])
    ensures { out.new ≡ sets out.old (7 * k) (row.op ∷ row.guard ∷ row.addr ∷ row.value ∷ advice.old ∷ advice.time ∷ advice.version ∷ []) }
{
    if out.len() <= k {
        return;
    }
    let at = 7 * k;
    put_input(at, row, out);
    put_advice(at + 4, advice, out);
}
