// A slot of a task's capability row, the row read at an index, and how many rows there are.
ghost use Rattle.std.specs.Prelude.{◌≡◌};
ghost use Rattle.cap.specs.Slot.{holding, from_slot, id_values, slot_error_number, slot_error_values};

use crate::CapId;
use laws::refusals;
use shown::{Answer, Shown};

// A task's row is named by a number below this.
pub const ROWS: usize = 54;

// A place for an id. A vacant one is all zero, and its id is never read; raw 0 present is an id.
#[derive(Clone, Copy, PartialEq, Eq)]
pub struct Slot {
    pub present: bool,
    pub id: CapId,
}

impl Slot {
    pub const VACANT: Slot = Slot {
        present: false,
        id: CapId { raw: 0 },
    };

    pub fn holding(id: CapId) -> Self
        ensures { result ≡ holding id }
    {
        Slot { present: true, id }
    }
}

// What a row holds at a slot.
pub type SlotAnswer = Result<CapId, SlotError>;

// Two refusals, since they are two faults: a slot outside the row, and one in it that nobody filled.
#[derive(Clone, Copy, PartialEq, Eq)]
pub enum SlotError {
    OutOfRange { slot: usize, slots: usize },
    Vacant { slot: usize },
}

impl Answer for CapId {
    ghost values_of = { id_values };

    fn shown(self) -> Shown {
        Shown::new(refusals::NONE, &[self.raw as u64])
    }
}

impl Answer for SlotError {
    ghost number_of = { slot_error_number };

    ghost values_of = { slot_error_values };

    fn shown(self) -> Shown {
        match self {
            SlotError::OutOfRange { slot, slots } => {
                Shown::new(refusals::OUT_OF_RANGE, &[slot as u64, slots as u64])
            }
            SlotError::Vacant { slot } => Shown::new(refusals::VACANT, &[slot as u64]),
        }
    }
}

// The id at `slot` of a task's own row. What lies outside the row cannot be named.
#[tactic(auto, unfolding(crate::specs::Slot::from_slot, laws::specs::Pick::pick))]
pub fn from_slot(row: [Slot; 4], slot: usize) -> SlotAnswer
    ensures { result ≡ from_slot row slot }
{
    let Some(held) = row.get(slot) else {
        return Err(SlotError::OutOfRange { slot, slots: 4 });
    };
    if held.present {
        Ok(held.id)
    } else {
        Err(SlotError::Vacant { slot })
    }
}
