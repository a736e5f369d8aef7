// What the calls on rows answer, and what a line shows of it.
ghost use Rattle.std.specs.Prelude.{◌≡◌};
ghost use Rattle.laws.specs.Refusals.{none};
ghost use Rattle.shown.specs.Shown.{shown, pushed_all};
ghost use Rattle.capslots.specs.Answers.{install_error_number, transfer_error_number, held_values, drain_values, holds_values};

use crate::SLOTS;
use cap::{Slot, WordError};
use laws::refusals;
use shown::{Answer, Shown};

pub type SeedAnswer = Result<(), WordError>;

pub type InstallAnswer = Result<(), InstallError>;

// Whether the other task lives is no slot arithmetic, and stays the caller's refusal.
pub type TransferAnswer = Result<(), TransferError>;

// One refusal on purpose: a slot out of range and an occupied one carry the same detail.
#[derive(Clone, Copy, PartialEq, Eq)]
pub enum InstallError {
    BadSlot = refusals::BAD_SLOT as isize,
}

#[derive(Clone, Copy, PartialEq, Eq)]
pub enum TransferError {
    // the source slot is empty or out of range
    BadFromSlot = refusals::BAD_FROM_SLOT as isize,
    // the destination slot holds an id
    ToSlotFull = refusals::TO_SLOT_FULL as isize,
    // the destination slot is out of range
    ToSlotOob = refusals::TO_SLOT_OOB as isize,
    // what would move is no endpoint
    Untransferable = refusals::UNTRANSFERABLE as isize,
    // a row from 54 up
    BadRow = refusals::BAD_ROW as isize,
}

impl Answer for InstallError {
    ghost number_of = { install_error_number };

    fn shown(self) -> Shown {
        Shown::new(self as u8, &[])
    }
}

impl Answer for TransferError {
    ghost number_of = { transfer_error_number };

    fn shown(self) -> Shown {
        Shown::new(self as u8, &[])
    }
}

// `0`, or `1 id`, after what is shown already.
#[tactic(auto, unfolding(shown::specs::Shown::pushed_all, crate::specs::Answers::held_values, laws::specs::Pick::pick))]
fn push_slot(s: Shown, slot: Slot) -> Shown
    ensures { result ≡ pushed_all s (held_values slot) }
{
    if slot.present {
        s.push(1).push(slot.id.raw as u64)
    } else {
        s.push(0)
    }
}

// What a drain shows of the slots that it took. Nothing refuses it.
pub fn drain_shown(slots: [Slot; SLOTS]) -> Shown
    ensures { result ≡ shown none (drain_values slots) }
{
    let mut s = Shown::new(refusals::NONE, &[]);
    for slot in slots {
        s = push_slot(s, slot);
    }
    s
}

// What the question whether a row holds an id shows. Nothing refuses it.
#[tactic(auto, unfolding(crate::specs::Answers::holds_values, laws::specs::Pick::pick))]
pub fn holds_shown(yes: bool) -> Shown
    ensures { result ≡ shown none (holds_values yes) }
{
    Shown::new(refusals::NONE, &[yes as u64])
}
