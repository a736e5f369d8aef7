// What a line shows of each answer: its number and its values. A refusal shows none but a slot's: 8 the slot
// and how many the row has, 9 the slot.
ghost use Rattle.std.specs.Prelude.{◌≡◌};
ghost use Rattle.shown.specs.Shown.{shown};
ghost use Rattle.dispatcher_rules.specs.Answers.{make_error_number, open_error_number, opened_values, close_error_number, by_slot_number, by_slot_values, slot_park_number, slot_park_values};

use crate::answers::{BySlotError, CloseError, MakeError, OpenError, OpenedJob, SlotParkAnswer};
use ipc_rules::showing::park_shown;
use laws::refusals;
use shown::{Answer, Shown};

impl Answer for OpenedJob {
    ghost values_of = { opened_values };

    fn shown(self) -> Shown {
        Shown::new(
            refusals::NONE,
            &[
                self.place as u64,
                self.send.raw as u64,
                self.recv.raw as u64,
            ],
        )
    }
}

impl Answer for MakeError {
    ghost number_of = { make_error_number };

    fn shown(self) -> Shown {
        Shown::new(self as u8, &[])
    }
}

impl Answer for OpenError {
    ghost number_of = { open_error_number };

    fn shown(self) -> Shown {
        Shown::new(self as u8, &[])
    }
}

impl Answer for CloseError {
    ghost number_of = { close_error_number };

    fn shown(self) -> Shown {
        Shown::new(self as u8, &[])
    }
}

impl Answer for BySlotError {
    ghost number_of = { by_slot_number };

    ghost values_of = { by_slot_values };

    fn shown(self) -> Shown {
        match self {
            BySlotError::OutOfRange { slot, slots } => {
                Shown::new(refusals::OUT_OF_RANGE, &[slot as u64, slots as u64])
            }
            BySlotError::Vacant { slot } => Shown::new(refusals::VACANT, &[slot as u64]),
            BySlotError::BadTable => Shown::new(refusals::BAD_TABLE, &[]),
        }
    }
}

pub fn slot_park_shown(answer: SlotParkAnswer) -> Shown
    ensures { result ≡ shown (slot_park_number answer) (slot_park_values answer) }
{
    match answer {
        Ok(parked) => park_shown(parked),
        Err(refusal) => refusal.shown(),
    }
}
