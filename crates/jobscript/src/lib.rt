// The job script: what `jobs` reads and answers, a record a call of the dispatcher. Ours; request No. 5.
//
// A call here tests the lent desk first and refuses one that is not ready with 27; `inner` has the same calls on a desk that is known to be
// ready.
#![tactic(auto)]

ghost use Rattle.std.specs.Prelude.{◌≡◌};
ghost use Rattle.jobscript.specs.Step.{step_error_number, refused_read, step_call};

use dispatcher_rules::state::Desk;
use laws::refusals;
use logread::ReadError;
use shown::{Answer, Shown};

mod fresh;
pub mod inner;
mod jobs;
mod lengths;
mod looks;
mod messages;
pub mod op;
mod operands;
mod reading;

pub use fresh::start;
pub use reading::read_record;

// What an operation comes to: what its line shows, and the desk afterwards.
#[derive(Clone, Copy)]
pub struct Outcome {
    pub shown: Shown,
    pub desk: Desk,
}

// Whether a step took its record, or the fault that stopped it. `NoRoom` is for whoever writes lines.
pub type StepAnswer = Result<(), StepError>;

#[derive(Clone, Copy, PartialEq, Eq)]
pub enum StepError {
    Short = refusals::SHORT as isize,
    BadMark = refusals::BAD_MARK as isize,
    BadOp = refusals::BAD_OP as isize,
    NoRoom = refusals::NO_ROOM as isize,
    BadTable = refusals::BAD_TABLE as isize,
}

impl Answer for StepError {
    ghost number_of = { step_error_number };

    fn shown(self) -> Shown {
        Shown::new(self as u8, &[])
    }
}

impl From<ReadError> for StepError {
    ghost from_gives = { λ e r. r ≡ refused_read e };

    fn from(fault: ReadError) -> StepError {
        match fault {
            ReadError::Short => StepError::Short,
            ReadError::BadMark => StepError::BadMark,
            ReadError::BadOp => StepError::BadOp,
            ReadError::BadOperand => StepError::BadOp,
        }
    }
}

// `used` bytes of the script were read, the operation was `op`, and its line shows `shown`; a refused step reads none, and shows its fault.
#[derive(Clone, Copy)]
pub struct Stepped {
    pub answer: StepAnswer,
    pub used: usize,
    pub op: u8,
    pub shown: Shown,
    pub desk: Desk,
}

// One record of the script.
pub fn step(script: &[u8], desk: Desk) -> Stepped
    ensures { result ≡ step_call script.now desk }
{
    if !dispatcher::ready(desk.dispatcher, desk.channels) {
        return Stepped {
            answer: Err(StepError::BadTable),
            used: 0,
            op: 0,
            shown: Shown::new(refusals::BAD_TABLE, &[]),
            desk,
        };
    }
    inner::step(script, desk)
}
