// The products and hashes after a row that writes no record of the memory: a pop, a dequeue, an end
// row, a range row.
ghost use Rattle.std.specs.Prelude.{◌≡◌};
ghost use Rattle.algebra.specs.Hash.{hash_from};
ghost use Rattle.field.specs.Moduli.{modulus_of};
ghost use Rattle.memory.specs.Step.{read_by, multiplied, multiply};
ghost use Rattle.factors.specs.Left.{left_by};

use field::moduli::Modulus;
use memory::{Challenge, Context, Memory, Op, Products, Row};
use records::places::{end_place, range_place};
use records::{ages, by_pair, by_triple};

// "Pop looks up clock − time, whatever the guard; reads (depth, old, time) if guard is 1"
pub(crate) fn pop(k: Modulus, ch: Challenge, c: Context, row: Row, ps: Products) -> Products
    requires { row.op ≡ Op.Pop }
    ensures { result ≡ multiply (modulus_of k) ch c row ps }
{
    let age = ages::age(k, k.add(c.pushed as u64, 1), row.time);
    let skipped = Products {
        supplied: by_pair(k, ch, ps.supplied, age, k.add(row.version, 1)),
        looked: by_pair(k, ch, ps.looked, age, row.version),
        ..ps
    };
    if row.guard != 1 {
        return skipped;
    }
    let depth = k.sub(c.pushed as u64, c.popped as u64);
    Products {
        read: by_triple(k, ch, ps.read, depth, row.old, row.time),
        ..skipped
    }
}

// The hash of what left a queue; no other memory has one. "An executed enqueue or dequeue makes its
// hash h·r + element."
fn left(k: Modulus, memory: Memory, executed: bool, hash: u64, r: u64, element: u64) -> u64
    ensures { result ≡ hash_from (modulus_of k) r hash (left_by memory executed element) }
{
    match memory {
        Memory::Ram | Memory::Rom | Memory::Set | Memory::Stack => hash,
        Memory::Queue => {
            if executed {
                k.horner(hash, r, element)
            } else {
                hash
            }
        }
    }
}

// A dequeue adds to the hash of what left.
pub(crate) fn dequeue(k: Modulus, ch: Challenge, c: Context, row: Row, ps: Products) -> Products
    requires { row.op ≡ Op.Dequeue }
    ensures { result ≡ multiply (modulus_of k) ch c row ps }
{
    Products {
        dequeued: left(k, c.memory, row.guard == 1, ps.dequeued, ch.r, row.old),
        ..ps
    }
}

// "End reads (address, old, time)" or "(address, value, version)", a set's pair, "(i, old, time), i
// from 1 to D".
fn end_read(k: Modulus, ch: Challenge, c: Context, row: Row, product: u64) -> u64
    ensures { result ≡ multiplied (modulus_of k) ch product (read_by (modulus_of k) c row c.memory Op.End) }
{
    match c.memory {
        Memory::Ram => by_triple(k, ch, product, end_place(c) as u64, row.old, row.time),
        Memory::Rom => by_triple(k, ch, product, end_place(c) as u64, row.value, row.version),
        Memory::Set => by_pair(k, ch, product, row.value, row.version),
        Memory::Stack => {
            let place = k.add(end_place(c) as u64, 1);
            by_triple(k, ch, product, place, row.old, row.time)
        }
        Memory::Queue => product,
    }
}

// An end row; a queue's "End continues the dequeue hash."
pub(crate) fn end(k: Modulus, ch: Challenge, c: Context, row: Row, ps: Products) -> Products
    requires { row.op ≡ Op.End }
    ensures { result ≡ multiply (modulus_of k) ch c row ps }
{
    Products {
        read: end_read(k, ch, c, row, ps.read),
        dequeued: left(k, c.memory, true, ps.dequeued, ch.r, row.old),
        ..ps
    }
}

// "A set holding 1 to T, set up at version 0": the setup of a number comes with its row.
pub(crate) fn range(k: Modulus, ch: Challenge, c: Context, row: Row, ps: Products) -> Products
    requires { row.op ≡ Op.Range }
    ensures { result ≡ multiply (modulus_of k) ch c row ps }
{
    let number = k.add(range_place(c) as u64, 1);
    Products {
        supplied: by_pair(k, ch, ps.supplied, number, 0),
        looked: by_pair(k, ch, ps.looked, number, row.version),
        ..ps
    }
}
