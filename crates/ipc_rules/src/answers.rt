// What each call answers: what it has done, or why not. A call that can change the table gives it back beside the answer.
use crate::opening::Reason;
use crate::state::{Channel, Message, Refusals, Table, Waiter};
use laws::refusals;

pub type NewAnswer = Result<(), NewError>;

pub type CreateAnswer = Result<Channel, CreateError>;

// the task to wake, if one was parked
pub type SendAnswer = Result<Waiter, SendError>;

pub type RecvAnswer = Result<Message, RecvError>;

// a message that is there already, or none: the task is parked
pub type ParkAnswer = Result<Option<Message>, ParkError>;

pub type QueuedAnswer = Result<usize, CapError>;

pub type HoldersAnswer = Result<u32, CapError>;

pub type RegisterAnswer = Result<(), RegisterError>;

pub type ReleaseAnswer = Result<(), TableError>;

// the task to wake, if one was parked
pub type RevokeAnswer = Result<Waiter, CapError>;

// how many mailboxes the task was taken out of
pub type ClearAnswer = Result<u32, TableError>;

pub type NoteAnswer = Result<(), TableError>;

pub type RefusalsAnswer = Result<Refusals, TableError>;

// For the supervisor: an id opens, or for which reason it does not.
pub type WhyAnswer = Result<(), WhyError>;

// The waiters that the release took out stand first, in list order.
#[derive(Drop)]
pub struct Releasing {
    pub answer: ReleaseAnswer,
    pub waiters: [Waiter; 4],
    pub table: Table,
}

// ---- refusals, by their numbers
#[derive(Clone, Copy, PartialEq, Eq)]
pub enum NewError {
    BadSizes = refusals::BAD_SIZES as isize,
}

#[derive(Clone, Copy, PartialEq, Eq)]
pub enum CreateError {
    NoMailbox = refusals::NO_MAILBOX as isize,
    NoEndpoint = refusals::NO_ENDPOINT as isize,
    BadTable = refusals::BAD_TABLE as isize,
}

#[derive(Clone, Copy, PartialEq, Eq)]
pub enum SendError {
    // the sending row is from 54 up
    BadRow = refusals::BAD_ROW as isize,
    BadCap = refusals::BAD_CAP as isize,
    Full = refusals::FULL as isize,
    BadTable = refusals::BAD_TABLE as isize,
}

#[derive(Clone, Copy, PartialEq, Eq)]
pub enum RecvError {
    BadCap = refusals::BAD_CAP as isize,
    Empty = refusals::EMPTY as isize,
    BadTable = refusals::BAD_TABLE as isize,
}

#[derive(Clone, Copy, PartialEq, Eq)]
pub enum ParkError {
    BadCap = refusals::BAD_CAP as isize,
    Busy = refusals::BUSY as isize,
    Cancelled = refusals::CANCELLED as isize,
    BadTable = refusals::BAD_TABLE as isize,
}

// Of a call with an id that refuses nothing else.
#[derive(Clone, Copy, PartialEq, Eq)]
pub enum CapError {
    BadCap = refusals::BAD_CAP as isize,
    BadTable = refusals::BAD_TABLE as isize,
}

#[derive(Clone, Copy, PartialEq, Eq)]
pub enum RegisterError {
    BadWord = refusals::BAD_WORD as isize,
    BadTable = refusals::BAD_TABLE as isize,
}

// Of a call that a sound table never refuses.
#[derive(Clone, Copy, PartialEq, Eq)]
pub enum TableError {
    BadTable = refusals::BAD_TABLE as isize,
}

#[derive(Clone, Copy, PartialEq, Eq)]
pub enum WhyError {
    Shut(Reason),
    BadTable,
}
