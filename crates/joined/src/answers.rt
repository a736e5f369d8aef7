// What the joined steps answer, with both tables beside it.
ghost use Rattle.joined.specs.Answers.{spawn_error_number, leave_error_number, give_error_number};

use capslots::Table as Rows;
use ipc_rules::state::{Table as Channels, Waiter};
use laws::refusals;
use shown::{Answer, Shown};

pub type SpawnAnswer = Result<(), SpawnError>;

pub type LeaveAnswer = Result<(), LeaveError>;

pub type GiveAnswer = Result<(), GiveError>;

#[derive(Clone, Copy, PartialEq, Eq)]
pub enum SpawnError {
    BadWord = refusals::BAD_WORD as isize,
    BadRow = refusals::BAD_ROW as isize,
    BadTable = refusals::BAD_TABLE as isize,
}

#[derive(Clone, Copy, PartialEq, Eq)]
pub enum LeaveError {
    BadRow = refusals::BAD_ROW as isize,
    BadTable = refusals::BAD_TABLE as isize,
}

// As for an install, a bad row, a bad slot and an occupied one are one refusal.
#[derive(Clone, Copy, PartialEq, Eq)]
pub enum GiveError {
    BadSlot = refusals::BAD_SLOT as isize,
    BadTable = refusals::BAD_TABLE as isize,
}

// The waiters that letting go of the row took out stand first, in the row's order.
#[derive(Drop)]
pub struct Spawning {
    pub answer: SpawnAnswer,
    pub waiters: [Waiter; 4],
    pub channels: Channels,
    pub rows: Rows,
}

// The waiters that the leave took out stand first, in the row's order.
#[derive(Drop)]
pub struct Leaving {
    pub answer: LeaveAnswer,
    pub waiters: [Waiter; 4],
    pub channels: Channels,
    pub rows: Rows,
}

#[derive(Drop)]
pub struct Giving {
    pub answer: GiveAnswer,
    pub channels: Channels,
    pub rows: Rows,
}

impl Answer for SpawnError {
    ghost number_of = { spawn_error_number };

    fn shown(self) -> Shown {
        Shown::new(self as u8, &[])
    }
}

impl Answer for LeaveError {
    ghost number_of = { leave_error_number };

    fn shown(self) -> Shown {
        Shown::new(self as u8, &[])
    }
}

impl Answer for GiveError {
    ghost number_of = { give_error_number };

    fn shown(self) -> Shown {
        Shown::new(self as u8, &[])
    }
}
