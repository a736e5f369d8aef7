// What the dispatcher's calls answer, with everything that was lent beside it.
ghost use Rattle.std.specs.Prelude.{◌≡◌};
ghost use Rattle.dispatcher_rules.specs.Open.{refused_creation};
ghost use Rattle.dispatcher_rules.specs.Slots.{refused_slot};

use crate::state::Dispatcher;
use cap::{CapId, SlotError};
use capslots::Table as Rows;
use ipc_rules::answers::{CreateError, ParkAnswer, RecvAnswer, SendAnswer};
use ipc_rules::state::{Table as Channels, Waiter};
use laws::refusals;

pub type MakeAnswer = Result<(), MakeError>;

pub type OpenAnswer = Result<OpenedJob, OpenError>;

// the task to wake, if one was parked
pub type CloseAnswer = Result<Waiter, CloseError>;

// By row and slot: what the channel table's own call answers for the id that stands there, or a refusal of the slot.
pub type SlotSendAnswer = Result<SendAnswer, BySlotError>;

pub type SlotRecvAnswer = Result<RecvAnswer, BySlotError>;

pub type SlotParkAnswer = Result<ParkAnswer, BySlotError>;

// The place that a job got, and its channel's two ids.
#[derive(Clone, Copy)]
pub struct OpenedJob {
    pub place: usize,
    pub send: CapId,
    pub recv: CapId,
}

#[derive(Clone, Copy, PartialEq, Eq)]
pub enum MakeError {
    BadVariants = refusals::BAD_VARIANTS as isize,
}

#[derive(Clone, Copy, PartialEq, Eq)]
pub enum OpenError {
    // no variant has the tag
    NoVariant = refusals::NO_VARIANT as isize,
    // the extractor's row is from 54 up
    BadRow = refusals::BAD_ROW as isize,
    // all places are open
    JobsFull = refusals::JOBS_FULL as isize,
    NoMailbox = refusals::NO_MAILBOX as isize,
    NoEndpoint = refusals::NO_ENDPOINT as isize,
    // the empty slots that are needed are not there
    BadSlot = refusals::BAD_SLOT as isize,
    BadTable = refusals::BAD_TABLE as isize,
}

impl From<CreateError> for OpenError {
    ghost from_gives = { λ e r. r ≡ refused_creation e };

    fn from(refusal: CreateError) -> OpenError {
        match refusal {
            CreateError::NoMailbox => OpenError::NoMailbox,
            CreateError::NoEndpoint => OpenError::NoEndpoint,
            CreateError::BadTable => OpenError::BadTable,
        }
    }
}

#[derive(Clone, Copy, PartialEq, Eq)]
pub enum CloseError {
    NoJob = refusals::NO_JOB as isize,
    BadTable = refusals::BAD_TABLE as isize,
}

#[derive(Clone, Copy, PartialEq, Eq)]
pub enum BySlotError {
    OutOfRange { slot: usize, slots: usize },
    Vacant { slot: usize },
    BadTable,
}

impl From<SlotError> for BySlotError {
    ghost from_gives = { λ e r. r ≡ refused_slot e };

    fn from(refusal: SlotError) -> BySlotError {
        match refusal {
            SlotError::OutOfRange { slot, slots } => BySlotError::OutOfRange { slot, slots },
            SlotError::Vacant { slot } => BySlotError::Vacant { slot },
        }
    }
}

#[derive(Drop)]
pub struct Making {
    pub answer: MakeAnswer,
    pub dispatcher: Dispatcher,
}

// What the end of a job's channel leaves, and the task to wake.
#[derive(Drop)]
pub struct Ending {
    pub waiter: Waiter,
    pub channels: Channels,
}

#[derive(Drop)]
pub struct JobOpening {
    pub answer: OpenAnswer,
    pub dispatcher: Dispatcher,
    pub rows: Rows,
    pub channels: Channels,
}

#[derive(Drop)]
pub struct JobClosing {
    pub answer: CloseAnswer,
    pub dispatcher: Dispatcher,
    pub rows: Rows,
    pub channels: Channels,
}

#[derive(Drop)]
pub struct SlotSending {
    pub answer: SlotSendAnswer,
    pub dispatcher: Dispatcher,
    pub rows: Rows,
    pub channels: Channels,
}

#[derive(Drop)]
pub struct SlotReceiving {
    pub answer: SlotRecvAnswer,
    pub dispatcher: Dispatcher,
    pub rows: Rows,
    pub channels: Channels,
}

#[derive(Drop)]
pub struct SlotParking {
    pub answer: SlotParkAnswer,
    pub dispatcher: Dispatcher,
    pub rows: Rows,
    pub channels: Channels,
}
