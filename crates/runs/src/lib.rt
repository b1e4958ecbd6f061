// The types that the definitions of the filling program's input and the code share. Definitions and
// statements are in specs/, proofs in proofs/.
#![tactic(auto)]

ghost use Rattle.std.specs.Prelude.{◌≡◌};
ghost use Rattle.runs.specs.Given.{given_input};
ghost use Rattle.runs.specs.Honest.{bare};

use memory::{Memory, Op, Row};

// A row of the filler's input, in the columns `op,guard,addr,value`.
#[derive(Clone, Copy)]
pub struct Given {
    pub op: Op,
    pub guard: u64,
    pub addr: u64,
    pub value: u64,
}

// An input row as a row: the columns that it does not have are 0.
impl From<Given> for Row {
    ghost from_gives = { λ given row. row ≡ bare (given_input given) };

    #[tactic(auto, unfolding(crate::specs::Honest::bare, crate::specs::Honest::filled_row))]
    fn from(given: Given) -> Row {
        Row {
            op: given.op,
            guard: given.guard,
            addr: given.addr,
            value: given.value,
            old: 0,
            time: 0,
            version: 0,
        }
    }
}

// What the lines of the filling program's input leave.
#[derive(Clone, Copy)]
pub struct Intake {
    // the number of the next line, 4 for all rows; any number, as of a forged intake
    pub place: u32,
    // the value line's
    pub memory: Memory,
    pub size: u32,
    pub count: u32,
    // rows passed
    pub passed: u32,
    // the first fault and its line; 0 and 0 where there is none; any numbers, as of a forged one
    pub answer: u32,
    pub line: u32,
}
