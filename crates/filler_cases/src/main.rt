// Cases of the filler's library that the filling program cannot meet: buffers too short, buffers
// lent dirty, codes and lengths that no file has. Prints for each case the number and place of its
// refusal or its row count, and then the words of both buffers.
#![tactic(auto)]

use field::moduli::Modulus;
use filler::Refused;

// A number on a line of its own.
fn number(rt: &impl Print, n: u64) {
    let _ = println!(rt; "{n}");
}

// The words of a slice, each on a line of its own.
fn words(rt: &impl Print, slice: &[u64]) {
    for word in slice {
        number(rt, *word);
    }
}

// Whether the fill came to rows or to a refusal, and then the numbers.
fn answer(rt: &impl Print, filled: Result<usize, Refused>) {
    match filled {
        Ok(rows) => {
            let _ = println!(rt; "rows");
            number(rt, rows as u64);
        }
        Err(refused) => {
            let _ = println!(rt; "refused");
            number(rt, u64::from(u32::from(refused.fault)));
            number(rt, refused.place as u64);
        }
    }
}

// Fills into the lent buffers, and prints the answer and what they then hold.
fn case(
    rt: &impl Print,
    memory: u32,
    size: u32,
    count: u32,
    rows: &[u64],
    out: &mut [u64],
    scratch: &mut [u64],
) {
    answer(
        rt,
        filler::fill(Modulus::M31, memory, size, count, rows, out, scratch),
    );
    let _ = println!(rt; "output");
    words(rt, out);
    let _ = println!(rt; "scratch");
    words(rt, scratch);
}

// No rows lent for a count of 1, and none for the scratch of a size of 1.
fn too_short(rt: &impl Print) {
    let mut none: [u64; 0] = [];
    let mut few = [7u64; 2];
    case(rt, 4, 0, 1, &[6, 1, 0, 5], &mut none, &mut few);
    let mut out = [7u64; 14];
    let mut empty: [u64; 0] = [];
    case(rt, 1, 1, 0, &[0, 0, 0, 5], &mut out, &mut empty);
}

// A memory that no number stands for, a size above the limit, rows that are not size + count.
fn turned_away(rt: &impl Print) {
    let mut out = [7u64; 3];
    let mut scratch = [9u64; 2];
    case(rt, 5, 0, 0, &[0; 0], &mut out, &mut scratch);
    case(rt, 0, 65537, 0, &[0; 0], &mut out, &mut scratch);
    case(rt, 3, 1, 0, &[0, 0, 0, 5], &mut out, &mut scratch);
    case(rt, 0, 0, 0, &[0, 0, 0, 5], &mut out, &mut scratch);
}

// A run that is filled into dirty buffers: output past the last row stays, scratch ends 0.
fn dirty(rt: &impl Print) {
    let mut out = [7u64; 37];
    let mut scratch = [9u64; 6];
    case(
        rt,
        2,
        1,
        1,
        &[0, 0, 0, 5, 3, 0, 0, 5],
        &mut out,
        &mut scratch,
    );
}

// A refused row: both buffers end 0, beyond the room too.
fn refused(rt: &impl Print) {
    let mut out = [7u64; 37];
    let mut scratch = [9u64; 6];
    case(
        rt,
        2,
        1,
        1,
        &[0, 0, 0, 5, 3, 0, 0, 6],
        &mut out,
        &mut scratch,
    );
    let mut big = [7u64; 36];
    let mut words = [9u64; 6];
    case(
        rt,
        1,
        1,
        1,
        &[0, 0, 0, 2147483647, 2, 0, 9, 0],
        &mut big,
        &mut words,
    );
}

// A set with equal elements, looked up more than once: the first of equal elements gets all
// lookups.
fn equal_elements(rt: &impl Print) {
    let mut out = [7u64; 154];
    let mut scratch = [9u64; 22];
    case(
        rt,
        2,
        5,
        4,
        &[
            0, 0, 0, 4, 0, 0, 0, 6, 0, 0, 0, 4, 0, 0, 0, 12, 0, 0, 0, 5, 3, 0, 0, 12, 3, 0, 0, 4,
            3, 0, 0, 6, 3, 0, 0, 4,
        ],
        &mut out,
        &mut scratch,
    );
}

fn main(rt: HostRuntime) {
    too_short(&rt);
    turned_away(&rt);
    dirty(&rt);
    refused(&rt);
    equal_elements(&rt);
}
