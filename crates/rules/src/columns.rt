// "Columns used": which columns a row may use, and 6 of the numbers.
ghost use Rattle.std.specs.Prelude.{◌≡◌};
ghost use Rattle.memory.specs.Rows.{columns, used, used_or_zero, formed};
ghost use Rattle.rules.specs.Columns.{columns_of};

use memory::{Memory, Op, Row};

// The columns that a row may use.
#[derive(Clone, Copy)]
pub(crate) struct Used {
    pub guard: bool,
    pub addr: bool,
    pub value: bool,
    pub old: bool,
    pub time: bool,
    pub version: bool,
}

// In the definition's own form, `columns guard addr value old time version`.
#[tactic(auto, unfolding(crate::specs::Columns::columns_of, memory::specs::Rows::columns))]
fn columns(guard: bool, addr: bool, value: bool, old: bool, time: bool, version: bool) -> Used
    ensures { columns_of result ≡ columns guard addr value old time version }
{
    Used {
        guard,
        addr,
        value,
        old,
        time,
        version,
    }
}

// The columns used, by memory and op.
#[tactic(auto, unfolding(memory::specs::Rows::used))]
fn of(memory: Memory, op: Op) -> Used
    ensures { columns_of result ≡ used memory op }
{
    match op {
        Op::Init => columns(false, false, true, false, false, false),
        Op::Access => columns(true, true, true, true, true, true),
        Op::Look => columns(false, true, false, true, false, true),
        Op::Member => columns(false, false, true, false, false, true),
        Op::Push | Op::Enqueue => columns(true, false, true, false, false, false),
        Op::Pop => columns(true, false, false, true, true, true),
        Op::Dequeue => columns(true, false, false, true, false, false),
        Op::End => match memory {
            Memory::Ram | Memory::Stack => columns(false, false, false, true, true, false),
            Memory::Rom | Memory::Set => columns(false, false, true, false, false, true),
            Memory::Queue => columns(false, false, false, true, false, false),
        },
        Op::Range => columns(false, false, false, false, false, true),
        Op::Other => columns(false, false, false, false, false, false),
    }
}

// "Other columns hold 0."
#[tactic(auto, unfolding(memory::specs::Rows::used_or_zero))]
fn fits(used: bool, x: u64) -> bool
    ensures { result ≡ used_or_zero used x }
{
    used | (x == 0)
}

// Not 6: "guard above 1, or an unused column not 0".
#[tactic(auto, unfolding(crate::specs::Columns::columns_of, memory::specs::Rows::columns, memory::specs::Rows::formed))]
pub fn formed(memory: Memory, row: Row) -> bool
    ensures { result ≡ formed memory row }
{
    let op = row.op;
    let u = of(memory, op);
    ((row.guard <= 1) & fits(u.guard, row.guard))
        & ((fits(u.addr, row.addr) & fits(u.value, row.value))
            & (fits(u.old, row.old) & (fits(u.time, row.time) & fits(u.version, row.version))))
}
