// Leave: a task's row on its exit.
ghost use Rattle.std.specs.Prelude.{◌≡◌};
ghost use Rattle.ipc_rules.specs.Sound.{Sound};
ghost use Rattle.joined.specs.Steps.{leave_of};

use crate::answers::{LeaveError, Leaving};
use cap::ROWS;
use capslots::Table as Rows;
use ipc_rules::state::{NOBODY, Table as Channels};

// Drains the row and releases its four, with the waiters that this takes out.
pub fn leave(channels: Channels, rows: Rows, row: usize) -> Leaving
    requires { Sound channels }
    ensures { result ≡ leave_of channels rows row }
{
    if row >= ROWS {
        return Leaving {
            answer: Err(LeaveError::BadRow),
            waiters: [NOBODY; 4],
            channels,
            rows,
        };
    }
    let drained = capslots::drain(rows, row);
    let slots = drained.slots;
    let emptied = drained.table;
    let released = ipc_holds::inner::release_holds(channels, slots);
    let waiters = released.waiters;
    let freed = released.table;
    Leaving {
        answer: Ok(()),
        waiters,
        channels: freed,
        rows: emptied,
    }
}
