// The capability rows: what each task may name, a slot of its own row. Ported from capslots.rs; rows are named by task slot.
#![tactic(auto)]

ghost use Rattle.std.specs.Prelude.{◌≡◌};
ghost use Rattle.capslots.specs.Table.{fresh_table};
ghost use Rattle.capslots.specs.Rows.{get_of, holds_of, seed_of, install_of, drain_of};

use cap::{CapId, ROWS, Slot, SlotAnswer, SlotError, WordError};
use shown::Answered;

mod answers;
mod moves;
mod vacancies;

pub use answers::{
    InstallAnswer, InstallError, SeedAnswer, TransferAnswer, TransferError, drain_shown,
    holds_shown,
};
pub use moves::{transfer, transfer_bounds};
pub use vacancies::{empty_slot, forget};

pub const SLOTS: usize = 4;

#[derive(Clone, Copy)]
pub struct Row {
    pub slots: [Slot; SLOTS],
}

#[derive(Clone, Copy)]
pub struct Table {
    pub rows: [Row; ROWS],
}

#[derive(Drop)]
pub struct Drained {
    pub slots: [Slot; SLOTS],
    pub table: Table,
}

impl Row {
    const EMPTY: Row = Row {
        slots: [Slot::VACANT; SLOTS],
    };
}

pub fn new() -> Table
    ensures { result ≡ fresh_table }
{
    Table {
        rows: [Row::EMPTY; ROWS],
    }
}

// A row from 54 up answers as one with no slots.
#[tactic(auto, unfolding(crate::specs::Rows::get_of, laws::specs::Pick::pick))]
pub fn get(t: Table, row: usize, slot: usize) -> SlotAnswer
    ensures { result ≡ get_of t row slot }
{
    let Some(own) = t.rows.get(row) else {
        return Err(SlotError::OutOfRange { slot, slots: 0 });
    };
    cap::from_slot(own.slots, slot)
}

// Whether any slot of the row holds the id.
#[tactic(auto, unfolding(crate::specs::Rows::holds_of, laws::specs::Pick::pick))]
pub fn holds(t: Table, row: usize, id: CapId) -> bool
    ensures { result ≡ holds_of t row id }
{
    let Some(own) = t.rows.get(row) else {
        return false;
    };
    own.slots.contains(&Slot::holding(id))
}

// A spawn's first row, holes included: a gap in the list is a vacant slot, and so is what lies past its end.
#[tactic(auto, unfolding(crate::specs::Rows::seed_of, laws::specs::Pick::pick))]
pub fn seed(mut t: Table, row: usize, list: &[u64]) -> Answered<SeedAnswer, Table>
    ensures { result ≡ seed_of t row list.now }
{
    if !cap::words_read(list) {
        return Answered {
            answer: Err(WordError::BadWord),
            table: t,
        };
    }
    if row < ROWS {
        t.rows[row] = Row {
            slots: std::array::from_fn(|i| cap::slot_at(list, i)),
        };
    }
    Answered {
        answer: Ok(()),
        table: t,
    }
}

#[tactic(auto, unfolding(crate::specs::Rows::install_of, laws::specs::Pick::pick))]
pub fn install(mut t: Table, row: usize, slot: usize, id: CapId) -> Answered<InstallAnswer, Table>
    ensures { result ≡ install_of t row slot id }
{
    if row >= ROWS || slot >= SLOTS || t.rows[row].slots[slot].present {
        return Answered {
            answer: Err(InstallError::BadSlot),
            table: t,
        };
    }
    t.rows[row].slots[slot] = Slot::holding(id);
    Answered {
        answer: Ok(()),
        table: t,
    }
}

// Takes a row on its task's exit, for its holds to be released.
#[tactic(auto, unfolding(crate::specs::Rows::drain_of, laws::specs::Pick::pick))]
pub fn drain(mut t: Table, row: usize) -> Drained
    ensures { result ≡ drain_of t row }
{
    if row >= ROWS {
        return Drained {
            slots: [Slot::VACANT; SLOTS],
            table: t,
        };
    }
    let Row { slots } = std::mem::replace(&mut t.rows[row], Row::EMPTY);
    Drained { slots, table: t }
}
