// The faults of document 01, section "The numbers".
ghost use Rattle.std.specs.Prelude.{◌≡◌};
ghost use Rattle.memory.specs.Faults.{fault_number, fault_of};

#[derive(Clone, Copy)]
pub enum Fault {
    // "line 1 or 3, without its line feed, is not the names line; or the file is empty"
    NotNames = 1,
    // "wrong number of fields, a number empty, over 10 digits, with a leading zero (0 itself is
    // fine) or not digits, line too long or without line feed"
    Unreadable = 2,
    // "a number is p or more"
    TooLarge = 3,
    // "unknown memory, size or count not allowed"
    NotAllowed = 4,
    // "the op is not one due here"
    NotDue = 5,
    // "guard above 1, or an unused column not 0"
    NotFormed = 6,
    // "file ends early, or a line follows the last due row"; of the filler's library "rows not size
    // + count"
    NotComplete = 7,
    // "the queue's depth product is 0, or the stack's depth is below 0"
    BelowEmpty = 8,
    // "range does not balance"
    RangeDiffers = 9,
    // "memory shuffle or hashes differ"
    ShuffleDiffers = 10,
    // "addr ≥ size"
    Outside = 11,
    // "executed pop or dequeue on empty"
    Empty = 12,
    // "value not in the set"
    NotMember = 13,
    // "output too short"
    OutputShort = 14,
    // "scratch too short"
    ScratchShort = 15,
}

// The number of a fault.
impl From<Fault> for u32 {
    ghost from_gives = { λ fault number. number ≡ fault_number fault };

    fn from(fault: Fault) -> u32 {
        fault as u32
    }
}

// The number of what may have a fault; 0 where there is none.
pub fn number<T>(outcome: &Result<T, Fault>) -> u32
    ensures { result ≡ fault_of outcome.now }
{
    match outcome {
        Ok(_) => 0,
        Err(fault) => u32::from(*fault),
    }
}
