// Spawn: a task's first row.
ghost use Rattle.std.specs.Prelude.{◌≡◌};
ghost use Rattle.ipc_rules.specs.Sound.{Sound};
ghost use Rattle.joined.specs.Steps.{spawn_of};

use crate::answers::{SpawnError, Spawning};
use cap::ROWS;
use capslots::Table as Rows;
use ipc_rules::state::{NOBODY, Table as Channels};

// Drains the row and releases its four, as a leave does; seeds it; and registers the four slots that it then has. What the list has past
// the fourth has to read, and holds nothing.
pub fn spawn(channels: Channels, rows: Rows, row: usize, list: &[u64]) -> Spawning
    requires { Sound channels }
    ensures { result ≡ spawn_of channels rows row list.now }
{
    let reads = cap::words_read(list);
    if !reads {
        return Spawning {
            answer: Err(SpawnError::BadWord),
            waiters: [NOBODY; 4],
            channels,
            rows,
        };
    }
    if row >= ROWS {
        return Spawning {
            answer: Err(SpawnError::BadRow),
            waiters: [NOBODY; 4],
            channels,
            rows,
        };
    }
    let drained = capslots::drain(rows, row);
    let before = drained.slots;
    let emptied = drained.table;
    let released = ipc_holds::inner::release_holds(channels, before);
    let waiters = released.waiters;
    let freed = released.table;
    let seeded = capslots::seed(emptied, row, list);
    let filled = seeded.table;
    let own = filled.rows[row];
    let present = own.slots;
    let held = ipc_holds::inner::register_four(freed, present);
    Spawning {
        answer: Ok(()),
        waiters,
        channels: held,
        rows: filled,
    }
}
