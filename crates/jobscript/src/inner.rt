// The script's operations, and the step, on a desk that is known to be ready.
ghost use Rattle.std.specs.Prelude.{◌≡◌};
ghost use Rattle.jobscript.specs.Done.{packed, ReadyDesk};
ghost use Rattle.jobscript.specs.Operations.{unknown_done, apply_of};
ghost use Rattle.jobscript.specs.Step.{step_of};

use crate::reading::read_record;
use crate::{Outcome, StepError, Stepped, fresh, jobs, looks, messages, op};
use dispatcher_rules::state::Desk;
use laws::refusals;
use logread::Record;
use shown::{Answer, Shown};

// A number that is no operation's changes nothing.
fn unknown(desk: Desk) -> Outcome
    ensures { result ≡ packed (unknown_done desk) }
{
    Outcome {
        shown: Shown::new(refusals::BAD_OP, &[]),
        desk,
    }
}

// The operation of this number, its operands in the record at the script's start.
#[tactic(auto, unfolding(crate::specs::Operations::apply_of))]
pub fn apply(op: u8, desk: Desk, script: &[u8]) -> Outcome
    requires { ReadyDesk desk }
    ensures { result ≡ packed (apply_of op script.now desk) }
{
    match op {
        op::NEW => fresh::op_new(desk, script),
        op::OPEN => jobs::op_open(desk, script),
        op::CLOSE => jobs::op_close(desk, script),
        op::SEND => messages::op_send(desk, script),
        op::RECEIVE => messages::op_receive(desk, script),
        op::PARK => messages::op_park(desk, script),
        op::ROW => looks::op_row(desk, script),
        op::COUNTS => looks::op_counts(desk),
        _ => unknown(desk),
    }
}

// One record of the script.
pub fn step(script: &[u8], desk: Desk) -> Stepped
    requires { ReadyDesk desk }
    ensures { result ≡ step_of script.now desk }
{
    match read_record(script) {
        Ok(Record { op, len }) => {
            let done = apply(op, desk, script);
            let shown = done.shown;
            let after = done.desk;
            Stepped {
                answer: Ok(()),
                used: len,
                op,
                shown,
                desk: after,
            }
        }
        Err(fault) => {
            let refusal = StepError::from(fault);
            Stepped {
                answer: Err(refusal),
                used: 0,
                op: 0,
                shown: refusal.shown(),
                desk,
            }
        }
    }
}
