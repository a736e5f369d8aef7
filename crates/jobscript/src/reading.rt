// What one record of the script says of itself: its mark, its operation and how long it is.
ghost use Rattle.std.specs.Prelude.{◌≡◌};
ghost use Rattle.jobscript.specs.Read.{job_read_of};

use crate::{lengths, op};
use logread::{Read, ReadError, Record};

const MARK: [u8; 2] = [75, 74];

// A byte that is missing is Short only where the mark before it is right, and missing operands only where the operation is known. Every byte
// is a row, a slot, a place, a size or part of a number, so no operand is ill formed.
pub fn read_record(script: &[u8]) -> Read
    ensures { result ≡ job_read_of script.now }
{
    if script.len() < 2 {
        return Err(ReadError::Short);
    }
    if !script.starts_with(&MARK) {
        return Err(ReadError::BadMark);
    }
    if script.len() < 3 {
        return Err(ReadError::Short);
    }
    let op = script[2];
    if op > op::LAST {
        return Err(ReadError::BadOp);
    }
    let len = 3 + lengths::operand_length(op);
    if script.len() < len {
        return Err(ReadError::Short);
    }
    Ok(Record { op, len })
}
