// The products and hashes after a row: section "The equations" of document 01, one function for
// each op. Those of rows that write no record of the memory are in module reads. Modulus,
// challenge, context, row and products are handed on one by one, as the definition takes them: of a
// struct of these every contract would name each field.
#![tactic(auto, unfolding(memory::specs::Step::ram_clock, field::specs::Field::add_of, algebra::specs::Modulo::plus, memory::specs::Equations::new_of, memory::specs::Step::multiply, memory::specs::Step::multiplied, memory::specs::Step::written_by, memory::specs::Step::read_by, memory::specs::Step::supplied_by, memory::specs::Step::looked_by, memory::specs::Step::lookups_by, memory::specs::Step::enqueued_by, memory::specs::Step::dequeued_by, algebra::specs::Hash::hash_from, memory::specs::Names::is_op, memory::specs::Names::op_code, memory::specs::Equations::set_init, memory::specs::Equations::pop_lookup, field::specs::Field::sub_of, memory::specs::Equations::access_read, memory::specs::Equations::range_read, memory::specs::Equations::range_write, memory::specs::Equations::look_read, memory::specs::Equations::look_write, memory::specs::Equations::member_read, memory::specs::Equations::member_write, memory::specs::Equations::push_write, field::specs::Field::horner_of, memory::specs::Equations::pop_read, crate::specs::Left::left_by,), using(crate::proofs::Dequeued::nothing_dequeued, records::proofs::Reduced::minus_reduced, records::proofs::Reduced::factor_last_reduced, crate::proofs::Dequeued::dequeue_left, records::proofs::Reduced::factor_first_reduced, crate::proofs::Dequeued::end_left, records::proofs::Reduced::pair_first_reduced,),)]

use field::moduli::Modulus;
use memory::{Challenge, Context, Memory, Op, Products, Row};
use records::{ages, by_pair, by_triple};

mod reads;

ghost use Rattle.std.specs.Prelude.{◌≡◌, ◌%◌};
ghost use Rattle.field.specs.Moduli.{modulus_of};
ghost use Rattle.memory.specs.Equations.{new_of};
ghost use Rattle.memory.specs.Step.{ram_clock, multiply};

// ram: "The clock starts at 1", and rises by 1 with each access.
fn clock(k: Modulus, c: Context) -> u64
    ensures { result ≡ ram_clock c % modulus_of k }
{
    if c.passed < c.size {
        0
    } else {
        k.add((c.passed - c.size) as u64, 1)
    }
}

// ram: "new is value under guard 1, old under guard 0"
fn chosen(row: Row) -> u64
    ensures { result ≡ new_of row }
{
    if row.guard == 1 { row.value } else { row.old }
}

// "Init writes (address, value, 0), addresses counting from 0"; a set's "pairs (value, version)".
fn init(k: Modulus, ch: Challenge, c: Context, row: Row, ps: Products) -> Products
    requires { row.op ≡ Op.Init }
    ensures { result ≡ multiply (modulus_of k) ch c row ps }
{
    match c.memory {
        Memory::Ram | Memory::Rom => Products {
            written: by_triple(k, ch, ps.written, c.passed as u64, row.value, 0),
            ..ps
        },
        Memory::Set => Products {
            written: by_pair(k, ch, ps.written, row.value, 0),
            ..ps
        },
        Memory::Stack | Memory::Queue => ps,
    }
}

// "Access reads (addr, old, time), looks up clock − time in the range, writes (addr, new, clock)"
fn access(k: Modulus, ch: Challenge, c: Context, row: Row, ps: Products) -> Products
    requires { row.op ≡ Op.Access }
    ensures { result ≡ multiply (modulus_of k) ch c row ps }
{
    let clock = clock(k, c);
    let age = ages::age(k, clock, row.time);
    Products {
        written: by_triple(k, ch, ps.written, row.addr, chosen(row), clock),
        read: by_triple(k, ch, ps.read, row.addr, row.old, row.time),
        supplied: by_pair(k, ch, ps.supplied, age, k.add(row.version, 1)),
        looked: by_pair(k, ch, ps.looked, age, row.version),
        ..ps
    }
}

// "Look reads (addr, old, version) and writes (addr, old, version + 1)."
fn look(k: Modulus, ch: Challenge, c: Context, row: Row, ps: Products) -> Products
    requires { row.op ≡ Op.Look }
    ensures { result ≡ multiply (modulus_of k) ch c row ps }
{
    Products {
        written: by_triple(k, ch, ps.written, row.addr, row.old, k.add(row.version, 1)),
        read: by_triple(k, ch, ps.read, row.addr, row.old, row.version),
        ..ps
    }
}

// A set's lookup: "The same with pairs (value, version)".
fn member(k: Modulus, ch: Challenge, c: Context, row: Row, ps: Products) -> Products
    requires { row.op ≡ Op.Member }
    ensures { result ≡ multiply (modulus_of k) ch c row ps }
{
    Products {
        written: by_pair(k, ch, ps.written, row.value, k.add(row.version, 1)),
        read: by_pair(k, ch, ps.read, row.value, row.version),
        ..ps
    }
}

// "Push adds guard to depth, writes (depth, value, clock) if guard is 1"
fn push(k: Modulus, ch: Challenge, c: Context, row: Row, ps: Products) -> Products
    requires { row.op ≡ Op.Push }
    ensures { result ≡ multiply (modulus_of k) ch c row ps }
{
    if row.guard != 1 {
        return ps;
    }
    let clock = k.add(c.pushed as u64, 1);
    Products {
        written: by_triple(
            k,
            ch,
            ps.written,
            k.sub(clock, c.popped as u64),
            row.value,
            clock,
        ),
        ..ps
    }
}

// "An executed enqueue or dequeue makes its hash h·r + element."
fn enqueue(k: Modulus, ch: Challenge, c: Context, row: Row, ps: Products) -> Products
    requires { row.op ≡ Op.Enqueue }
    ensures { result ≡ multiply (modulus_of k) ch c row ps }
{
    if row.guard != 1 {
        return ps;
    }
    Products {
        enqueued: k.horner(ps.enqueued, ch.r, row.value),
        ..ps
    }
}

// The products and hashes after a row.
pub fn multiply(k: Modulus, ch: Challenge, c: Context, row: Row, ps: Products) -> Products
    ensures { result ≡ multiply (modulus_of k) ch c row ps }
{
    match row.op {
        Op::Init => init(k, ch, c, row, ps),
        Op::Access => access(k, ch, c, row, ps),
        Op::Look => look(k, ch, c, row, ps),
        Op::Member => member(k, ch, c, row, ps),
        Op::Push => push(k, ch, c, row, ps),
        Op::Pop => reads::pop(k, ch, c, row, ps),
        Op::Enqueue => enqueue(k, ch, c, row, ps),
        Op::Dequeue => reads::dequeue(k, ch, c, row, ps),
        Op::End => reads::end(k, ch, c, row, ps),
        Op::Range => reads::range(k, ch, c, row, ps),
        Op::Other => ps,
    }
}
