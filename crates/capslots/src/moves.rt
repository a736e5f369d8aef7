// An id moved from one row's slot to another's.
ghost use Rattle.std.specs.Prelude.{◌≡◌};
ghost use Rattle.cap.specs.Id.{class_of};
ghost use Rattle.capslots.specs.Transfer.{is_endpoint, bounds_of, transfer_of};

use crate::answers::{TransferAnswer, TransferError};
use crate::{SLOTS, Table};
use cap::{CapClass, CapId, ROWS, Slot};
use shown::Answered;

// The bounds by themselves: a caller asks them first, then whether the other task lives, then for the whole transfer.
#[tactic(auto, unfolding(crate::specs::Transfer::bounds_of, laws::specs::Pick::pick))]
pub fn transfer_bounds(from_slot: usize, to_slot: usize) -> TransferAnswer
    ensures { result ≡ bounds_of from_slot to_slot }
{
    if from_slot >= SLOTS {
        return Err(TransferError::BadFromSlot);
    }
    if to_slot >= SLOTS {
        return Err(TransferError::ToSlotOob);
    }
    Ok(())
}

fn is_endpoint(id: CapId) -> bool
    ensures { result ≡ is_endpoint (class_of id) }
{
    matches!(id.classify(), CapClass::Endpoint(_))
}

// Only endpoints move: a moved task id would be delegation, and an IRQ id has one task that may arm it.
#[tactic(auto, unfolding(crate::specs::Transfer::bounds_of, crate::specs::Transfer::transfer_of, laws::specs::Pick::pick))]
pub fn transfer(
    mut t: Table,
    from_row: usize,
    from_slot: usize,
    to_row: usize,
    to_slot: usize,
) -> Answered<TransferAnswer, Table>
    ensures { result ≡ transfer_of t from_row from_slot to_row to_slot }
{
    let bounds = transfer_bounds(from_slot, to_slot);
    let Ok(()) = bounds else {
        return Answered {
            answer: bounds,
            table: t,
        };
    };
    if (from_row == to_row) & (from_slot == to_slot) {
        return Answered {
            answer: Ok(()),
            table: t,
        };
    }
    if from_row >= ROWS {
        return Answered {
            answer: Err(TransferError::BadRow),
            table: t,
        };
    }
    let held = t.rows[from_row].slots[from_slot];
    if !held.present {
        return Answered {
            answer: Err(TransferError::BadFromSlot),
            table: t,
        };
    }
    let id = held.id;
    if !is_endpoint(id) {
        return Answered {
            answer: Err(TransferError::Untransferable),
            table: t,
        };
    }
    if to_row >= ROWS {
        return Answered {
            answer: Err(TransferError::BadRow),
            table: t,
        };
    }
    if t.rows[to_row].slots[to_slot].present {
        return Answered {
            answer: Err(TransferError::ToSlotFull),
            table: t,
        };
    }
    t.rows[from_row].slots[from_slot] = Slot::VACANT;
    t.rows[to_row].slots[to_slot] = Slot::holding(id);
    Answered {
        answer: Ok(()),
        table: t,
    }
}
