// The types that the definitions of document 01 and the code share, and the numbers of its faults.
// Definitions and statements are in specs/, proofs in proofs/.
#![tactic(auto)]

ghost use Rattle.std.specs.Prelude.{◌≡◌, [], ◌∷◌};

use field::moduli::Modulus;

pub mod codes;
pub mod faults;
pub mod names;

// Names line, value line and names line come before the rows, which begin on line 4.
pub const HEAD_LINES: u32 = 3;

pub const FIRST_LINE: u32 = HEAD_LINES + 1;

// "The memory is `ram`, `rom`, `set`, `stack` or `queue`."
#[derive(Clone, Copy)]
pub enum Memory {
    Ram = 0,
    Rom = 1,
    Set = 2,
    Stack = 3,
    Queue = 4,
}

// The op of a row; `Other` is any name that document 01 does not have.
#[derive(Clone, Copy, PartialEq, Eq)]
pub enum Op {
    Init = 0,
    Access = 1,
    Look = 2,
    Member = 3,
    Push = 4,
    Pop = 5,
    Enqueue = 6,
    Dequeue = 7,
    End = 8,
    Range = 9,
    Other = 10,
}

// Where a row stands: among the init rows, the operations, the end rows or the range rows, or past
// the last due row.
#[derive(Clone, Copy)]
pub enum Phase {
    Starting,
    Operating,
    Ending,
    Ranging,
    Over,
}

// A row, in the columns `op,guard,addr,value,old,time,version`.
#[derive(Clone, Copy)]
pub struct Row {
    pub op: Op,
    pub guard: u64,
    pub addr: u64,
    pub value: u64,
    pub old: u64,
    pub time: u64,
    pub version: u64,
}

impl Row {
    // The numbers of a row, in the order of its columns.
    pub fn numbers(self) -> [u64; 6]
        ensures { result ≡ self.guard ∷ self.addr ∷ self.value ∷ self.old ∷ self.time ∷ self.version ∷ [] }
    {
        [
            self.guard,
            self.addr,
            self.value,
            self.old,
            self.time,
            self.version,
        ]
    }
}

// "A challenge is four elements r, a, b, c."
#[derive(Clone, Copy, Default)]
pub struct Challenge {
    pub r: u64,
    pub a: u64,
    pub b: u64,
    pub c: u64,
}

// The values of a value line.
#[derive(Clone, Copy)]
pub struct Values {
    pub memory: Memory,
    pub size: u32,
    pub count: u32,
    pub challenge: Challenge,
}

// The part of a checker's state that no challenge enters.
#[derive(Clone, Copy)]
pub struct Context {
    pub memory: Memory,
    pub size: u32,
    pub count: u32,
    // rows passed
    pub passed: u32,
    // executed pushes or enqueues, and executed pops or dequeues
    pub pushed: u32,
    pub popped: u32,
    // the queue's product of depth + 1 − guard
    pub depths: u64,
    pub inputs: u32,
    pub mults: u32,
    // the refusal and its line; 0 and 0 where there is none. Any numbers stand here, as in a state
    // that is forged: what is promised is promised of those too
    pub answer: u32,
    pub line: u32,
    // the end of file has come
    pub ended: bool,
}

// The running products and hashes of a checker's state.
#[derive(Clone, Copy)]
pub struct Products {
    pub written: u64,
    pub read: u64,
    pub supplied: u64,
    pub looked: u64,
    pub enqueued: u64,
    pub dequeued: u64,
}

#[derive(Clone, Copy)]
pub struct State {
    pub context: Context,
    pub challenge: Challenge,
    pub products: Products,
}

// A state and the modulus that it computes with: what is lent to a checker.
#[derive(Clone, Copy)]
pub struct Lent {
    pub field: Modulus,
    pub state: State,
}

// What a check prints: answer, line, inputs, multiplications. The answer is that of a state, which
// may be any number.
#[derive(Clone, Copy)]
pub struct Report {
    pub answer: u64,
    pub line: u64,
    pub inputs: u64,
    pub mults: u64,
}

// What the lines of a checked file leave.
#[derive(Clone, Copy)]
pub struct Stand {
    // the number of the next line, FIRST_LINE for all rows; any number, as of a forged stand
    pub place: u32,
    pub state: State,
}
