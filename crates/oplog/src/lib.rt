// The operation log: one record in, one line out, and all records of a log.
//
// A call here tests the lent channel table first and refuses one that is not sound with 27; `inner` has the same calls on tables that
// are known to be sound.
#![tactic(auto)]

ghost use Rattle.std.specs.Prelude.{◌≡◌};
ghost use Rattle.oplog.specs.Border.{step_call, step_leaves};
ghost use Rattle.oplog.specs.Step.{step_error_number, refused_read};

use laws::refusals;
use logread::ReadError;
use operations::Tables;
use shown::{Answer, Shown};

pub mod inner;
pub mod replay;

// Whether a step took its record, or the fault that stopped it.
pub type StepAnswer = Result<(), StepError>;

#[derive(Clone, Copy, PartialEq, Eq)]
pub enum StepError {
    Short = refusals::SHORT as isize,
    BadMark = refusals::BAD_MARK as isize,
    BadOp = refusals::BAD_OP as isize,
    BadOperand = refusals::BAD_OPERAND as isize,
    NoRoom = refusals::NO_ROOM as isize,
    BadTable = refusals::BAD_TABLE as isize,
}

impl Answer for StepError {
    ghost number_of = { step_error_number };

    fn shown(self) -> Shown {
        Shown::new(self as u8, &[])
    }
}

impl From<ReadError> for StepError {
    ghost from_gives = { λ e r. r ≡ refused_read e };

    fn from(fault: ReadError) -> StepError {
        match fault {
            ReadError::Short => StepError::Short,
            ReadError::BadMark => StepError::BadMark,
            ReadError::BadOp => StepError::BadOp,
            ReadError::BadOperand => StepError::BadOperand,
        }
    }
}

// `used` bytes of the log were read, and `at` is the buffer's first free place; a refused step reads none and leaves it.
#[derive(Clone, Copy)]
pub struct Stepped {
    pub answer: StepAnswer,
    pub used: usize,
    pub at: usize,
    pub tables: Tables,
}

// How a run ended: `Took` where nothing of the log is left, else the fault, at `offset`. `done` records were taken in all, and `at` is the
// buffer's first free place.
#[derive(Clone, Copy)]
pub struct Ran {
    pub answer: StepAnswer,
    pub offset: usize,
    pub done: u64,
    pub at: usize,
    pub tables: Tables,
}

// One record of the log, and its line from place `at` of the lent buffer on.
pub fn step(log: &[u8], number: u64, out: &mut [u8], at: usize, t: Tables) -> Stepped
    ensures answer { result ≡ step_call log.now number out.old at t }
    ensures buffer { out.new ≡ step_leaves log.now number out.old at t }
{
    let channels = t.channels;
    if !ipc_sound::sound(channels) {
        return Stepped {
            answer: Err(StepError::BadTable),
            used: 0,
            at,
            tables: t,
        };
    }
    inner::step(log, number, out, at, t)
}
