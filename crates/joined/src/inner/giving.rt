// Give: one id more in a row.
ghost use Rattle.std.specs.Prelude.{◌≡◌};
ghost use Rattle.ipc_rules.specs.Sound.{Sound};
ghost use Rattle.joined.specs.Steps.{give_of};

use crate::answers::{GiveError, Giving};
use cap::{CapId, Slot};
use capslots::Table as Rows;
use ipc_rules::state::Table as Channels;

// Installs the id and, where that succeeds, registers it. An id that opens nothing is given all the same, and holds nothing.
pub fn give(channels: Channels, rows: Rows, row: usize, slot: usize, id: CapId) -> Giving
    requires { Sound channels }
    ensures { result ≡ give_of channels rows row slot id }
{
    let installed = capslots::install(rows, row, slot, id);
    let answer = installed.answer;
    let Ok(()) = answer else {
        return Giving {
            answer: Err(GiveError::BadSlot),
            channels,
            rows,
        };
    };
    let filled = installed.table;
    let list = [cap::word_of(Slot::holding(id))];
    let registered = ipc_holds::inner::register_holds(channels, &list);
    let held = registered.table;
    Giving {
        answer: Ok(()),
        channels: held,
        rows: filled,
    }
}
