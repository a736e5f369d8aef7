// Vacant slots: the lowest of a row, and those that two ids leave behind which are forgotten.
ghost use Rattle.std.specs.Prelude.{◌≡◌};
ghost use Rattle.capslots.specs.Rows.{empty_slot_of, forget_in, forget_row, forgotten_of};

use crate::{Row, Table};
use cap::{CapId, Slot};

// The lowest empty slot of the row: an install there succeeds.
#[tactic(auto, unfolding(crate::specs::Rows::empty_slot_of, laws::specs::Pick::pick))]
pub fn empty_slot(t: Table, row: usize) -> Option<usize>
    ensures { result ≡ empty_slot_of t row }
{
    t.rows.get(row)?.slots.iter().position(|s| !s.present)
}

#[tactic(auto, unfolding(crate::specs::Rows::forget_in, laws::specs::Pick::pick))]
fn forget_slot(held: Slot, a: CapId, b: CapId) -> Slot
    ensures { result ≡ forget_in a b held }
{
    if held == Slot::holding(a) || held == Slot::holding(b) {
        Slot::VACANT
    } else {
        held
    }
}

fn forget_row(mut own: Row, a: CapId, b: CapId) -> Row
    ensures { result ≡ forget_row a b own }
{
    for slot in &mut own.slots {
        *slot = forget_slot(*slot, a, b);
    }
    own
}

// Every slot that holds one of the two ids becomes vacant, in all rows.
#[tactic(auto, unfolding(crate::specs::Rows::forgotten_of))]
pub fn forget(mut t: Table, a: CapId, b: CapId) -> Table
    ensures { result ≡ forgotten_of t a b }
{
    for row in &mut t.rows {
        *row = forget_row(*row, a, b);
    }
    t
}
