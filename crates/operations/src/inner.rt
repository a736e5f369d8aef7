// The log's operations on tables whose channel table is known to be sound.
ghost use Rattle.std.specs.Prelude.{◌≡◌};
ghost use Rattle.ipc_rules.specs.Sound.{Sound};
ghost use Rattle.operations.specs.Apply.{apply_of, unknown_done};
ghost use Rattle.operations.specs.Done.{packed};

use crate::{Outcome, Tables, channels, counts, holds, joined_steps, messages, mints, rows};
use laws::refusals;
use logread::op;
use shown::Shown;

// A number that is no operation's changes nothing.
fn unknown(t: Tables) -> Outcome
    ensures { result ≡ packed (unknown_done t) }
{
    Outcome {
        shown: Shown::new(refusals::BAD_OP, &[]),
        tables: t,
    }
}

// The operation of this number, its operands in the record at the log's start.
//
// Create, register, spawn and give may hand the tables on just as they came. They get a copy of their own for the optimiser's sake: else it
// copies the tables at the start of every operation, and a replay takes a third longer.
pub fn apply(op: u8, t: Tables, log: &[u8]) -> Outcome
    requires { Sound t.channels }
    ensures { result ≡ packed (apply_of op log.now t) }
{
    match op {
        op::NEW => channels::op_new(t, log),
        op::CREATE => {
            let own = t;
            channels::op_create(own, log)
        }
        op::SEND => messages::op_send(t, log),
        op::RECEIVE => messages::op_receive(t, log),
        op::PARK => messages::op_park(t, log),
        op::QUEUED => counts::op_queued(t, log),
        op::REVOKE => channels::op_revoke(t, log),
        op::REGISTER => {
            let own = t;
            holds::op_register(own, log)
        }
        op::RELEASE => holds::op_release(t, log),
        op::HOLDERS => counts::op_holders(t, log),
        op::CLEAR_WAITER => channels::op_clear_waiter(t, log),
        op::NOTE_AUTHORITY => counts::op_note_authority(t),
        op::NOTE_STATE => counts::op_note_state(t),
        op::GET => rows::op_get(t, log),
        op::HOLDS => rows::op_holds(t, log),
        op::SEED => rows::op_seed(t, log),
        op::INSTALL => rows::op_install(t, log),
        op::TRANSFER => rows::op_transfer(t, log),
        op::DRAIN => rows::op_drain(t, log),
        op::TASK_MINT => mints::op_task_mint(t, log),
        op::TASK_LOOKUP => mints::op_task_lookup(t, log),
        op::TASK_END => mints::op_task_end(t, log),
        op::IRQ_MINT => mints::op_irq_mint(t, log),
        op::IRQ_LOOKUP => mints::op_irq_lookup(t, log),
        op::SPAWN => {
            let own = t;
            joined_steps::op_spawn(own, log)
        }
        op::LEAVE => joined_steps::op_leave(t, log),
        op::GIVE => {
            let own = t;
            joined_steps::op_give(own, log)
        }
        op::COUNTS => counts::op_counts(t),
        _ => unknown(t),
    }
}
