// Holds for a list that is lent as slot records.
ghost use Rattle.std.specs.Prelude.{◌≡◌};
ghost use Rattle.lent.specs.Holds.{register_slots};

use cap::Slot;
use ipc_holds::inner::register_one;
use ipc_rules::answers::{RegisterAnswer, RegisterError};
use ipc_rules::state::Table;
use shown::Answered;

// A hold for each id of the list that opens for send, as `ipc::register_holds` does for words; every record reads, so there is no 21.
pub fn register_holds(t: Table, slots: &[Slot]) -> Answered<RegisterAnswer, Table>
    ensures { result ≡ register_slots t slots.now }
{
    if !ipc_sound::sound(t) {
        return Answered {
            answer: Err(RegisterError::BadTable),
            table: t,
        };
    }
    let mut table = t;
    for slot in slots {
        table = register_one(table, *slot);
    }
    Answered {
        answer: Ok(()),
        table,
    }
}
