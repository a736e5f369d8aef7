// Operations 6 and 7: a row's slots and the refusals counted, as they stand.
ghost use Rattle.std.specs.Prelude.{◌≡◌};
ghost use Rattle.jobscript.specs.Done.{packed};
ghost use Rattle.jobscript.specs.Operations.{row_done, counts_done};

use crate::Outcome;
use crate::operands::index_at;
use cap::ROWS;
use dispatcher_rules::state::Desk;
use laws::refusals;
use shown::{Answer, Shown};

// 6.
pub fn op_row(desk: Desk, script: &[u8]) -> Outcome
    ensures { result ≡ packed (row_done script.now desk) }
{
    let row = index_at(script, 3);
    if row >= ROWS {
        return Outcome {
            shown: Shown::new(refusals::BAD_ROW, &[]),
            desk,
        };
    }
    let rows = desk.rows;
    let own = rows.rows[row];
    let slots = own.slots;
    Outcome {
        shown: capslots::drain_shown(slots),
        desk,
    }
}

// 7: nothing refuses it.
pub fn op_counts(desk: Desk) -> Outcome
    ensures { result ≡ packed (counts_done desk) }
{
    let counts = desk.channels.counters.refusals;
    Outcome {
        shown: counts.shown(),
        desk,
    }
}
