// What one record of the log says of itself: its mark, its operation, how long it is, and whether its operands are well formed.
#![tactic(auto)]

ghost use Rattle.std.specs.Prelude.{◌≡◌};
ghost use Rattle.logread.specs.Read.{read_of, record_values, read_error_number, read_number, read_values};
ghost use Rattle.shown.specs.Shown.{shown};

use laws::refusals;
use shown::{Answer, Shown};

mod lengths;
mod lists;
mod little;
pub mod op;
mod operands;

pub use lists::{list_slot, list_slots, list_words};
pub use little::{byte_at, u16_at, u32_at, u64_at};

const MARK: [u8; 2] = *b"KC";

// A whole record. `len` counts all of it, mark and operation included.
#[derive(Clone, Copy)]
pub struct Record {
    pub op: u8,
    pub len: usize,
}

// What a log starts with: a whole record, or its first fault.
pub type Read = Result<Record, ReadError>;

#[derive(Clone, Copy, PartialEq, Eq)]
pub enum ReadError {
    Short = refusals::SHORT as isize,
    BadMark = refusals::BAD_MARK as isize,
    BadOp = refusals::BAD_OP as isize,
    BadOperand = refusals::BAD_OPERAND as isize,
}

impl Answer for Record {
    ghost values_of = { record_values };

    fn shown(self) -> Shown {
        Shown::new(refusals::NONE, &[self.op as u64, self.len as u64])
    }
}

impl Answer for ReadError {
    ghost number_of = { read_error_number };

    fn shown(self) -> Shown {
        Shown::new(self as u8, &[])
    }
}

// What a line shows of what a log starts with.
pub fn read_shown(read: Read) -> Shown
    ensures { result ≡ shown (read_number read) (read_values read) }
{
    read.shown()
}

// A byte that is missing is Short only where the mark before it is right, and missing operands only where the operation is known.
#[tactic(auto, using(crate::proofs::Few::operands_few), unfolding(crate::specs::Read::read_of, laws::specs::Pick::pick))]
pub fn read_record(log: &[u8]) -> Read
    ensures { result ≡ read_of log.now }
{
    if log.len() < MARK.len() {
        return Err(ReadError::Short);
    }
    if !log.starts_with(&MARK) {
        return Err(ReadError::BadMark);
    }
    let Some(&op) = log.get(2) else {
        return Err(ReadError::Short);
    };
    if op > op::LAST {
        return Err(ReadError::BadOp);
    }
    let len = 3 + lengths::operand_length(op);
    if log.len() < len {
        return Err(ReadError::Short);
    }
    if !operands::operands_ok(op, log) {
        return Err(ReadError::BadOperand);
    }
    Ok(Record { op, len })
}
