// What a dispatcher is made of: tags that are bound to rows, and places for jobs.
use cap::CapId;
use capslots::Table as Rows;
use ipc_rules::state::{Channel, Table as Channels};

pub const MAX_VARIANTS: usize = 16;

pub const MAX_JOBS: usize = 16;

// Five bytes, such as `pt-PT`.
#[derive(Clone, Copy, PartialEq, Eq)]
pub struct Tag {
    pub bytes: [u8; 5],
}

// A tag bound to a row.
#[derive(Clone, Copy)]
pub struct Variant {
    pub tag: Tag,
    pub row: usize,
}

// A place for one job. Of one that is not open nothing else is read.
#[derive(Clone, Copy)]
pub struct Job {
    pub open: bool,
    pub ends: Channel,
    pub tag: Tag,
}

// The first `count` variants are bound; the others are not looked at.
#[derive(Clone, Copy)]
pub struct Dispatcher {
    pub count: usize,
    pub variants: [Variant; MAX_VARIANTS],
    pub jobs: [Job; MAX_JOBS],
}

// What the calls work on: a dispatcher with the rows and the channel table that it is lent.
#[derive(Clone, Copy)]
pub struct Desk {
    pub dispatcher: Dispatcher,
    pub rows: Rows,
    pub channels: Channels,
}

// The parts as when fresh.
pub const NO_TAG: Tag = Tag { bytes: [0; 5] };

pub const NO_VARIANT: Variant = Variant {
    tag: NO_TAG,
    row: 0,
};

pub const NO_JOB: Job = Job {
    open: false,
    ends: Channel {
        send: CapId { raw: 0 },
        recv: CapId { raw: 0 },
    },
    tag: NO_TAG,
};
