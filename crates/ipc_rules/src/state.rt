// What a channel table is made of. Ported from ipc.rs: one record with the greatest sizes and the sizes in force, and all message
// rings in one array.
ghost use Rattle.std.specs.Prelude.{◌≡◌};
ghost use Rattle.ipc_rules.specs.State.{end_lives, box_lives};

use cap::{CapId, CapRights};
use ring::Ring;

pub const MAX_MAILBOXES: usize = 32;

pub const MAX_ENDPOINTS: usize = 64;

pub const MAX_DEPTH: usize = 8;

// What a sender hands in.
#[derive(Clone, Copy)]
pub struct Payload {
    pub tag: u32,
    pub a: u64,
    pub b: u64,
}

// What stands in a ring and is given out: that, stamped with the sending row. The stamp is the last of its parts; it stands beside the
// tag so that a message stays at 24 bytes.
#[derive(Clone, Copy, PartialEq, Eq)]
pub struct Message {
    pub tag: u32,
    pub row: u8,
    pub a: u64,
    pub b: u64,
}

#[derive(Clone, Copy, PartialEq, Eq)]
pub struct TaskId {
    pub slot: u16,
    pub epoch: u16,
}

// A place for one parked task.
#[derive(Clone, Copy, PartialEq, Eq)]
pub struct Waiter {
    pub present: bool,
    pub task: TaskId,
}

// The two ids of one mailbox.
#[derive(Clone, Copy)]
pub struct Channel {
    pub send: CapId,
    pub recv: CapId,
}

// Refusal counts, kept apart by what they mean: no right, no room, bookkeeping that asked for something impossible.
#[derive(Clone, Copy)]
pub struct Refusals {
    pub authority: u32,
    pub full: u32,
    pub state: u32,
}

#[derive(Clone, Copy, PartialEq, Eq)]
pub struct Endpoint {
    pub live: bool,
    pub generation: u16,
    pub rights: CapRights,
    pub mailbox: u8,
}

// The ring's places are in the table's `messages`. An ephemeral mailbox gives its waiter up when the last send hold goes.
#[derive(Clone, Copy, PartialEq, Eq)]
pub struct Mailbox {
    pub live: bool,
    pub ring: Ring,
    pub waiter: Waiter,
    pub send_holders: u32,
    pub ephemeral: bool,
}

#[derive(Clone, Copy)]
pub struct Sizes {
    pub mailboxes: usize,
    pub endpoints: usize,
    pub depth: usize,
}

// What counts on over the table's life: the generation that the next channel gets, and the refusals so far.
#[derive(Clone, Copy)]
pub struct Counters {
    pub next_gen: u16,
    pub refusals: Refusals,
}

// Place p of mailbox k's ring is `messages[k * MAX_DEPTH + p]`.
#[derive(Clone, Copy)]
pub struct Table {
    pub sizes: Sizes,
    pub endpoints: [Endpoint; 64],
    pub mailboxes: [Mailbox; 32],
    pub messages: [Message; 256],
    pub counters: Counters,
}

// The one reading of liveness, for endpoints and for mailboxes.
impl Endpoint {
    pub fn is_live(self) -> bool
        ensures { result ≡ end_lives self }
    {
        self.live
    }
}

impl Mailbox {
    pub fn is_live(self) -> bool
        ensures { result ≡ box_lives self }
    {
        self.live
    }
}

// The parts as when fresh.
pub const NOBODY: Waiter = Waiter {
    present: false,
    task: TaskId { slot: 0, epoch: 0 },
};

pub const FRESH_MESSAGE: Message = Message {
    tag: 0,
    row: 0,
    a: 0,
    b: 0,
};

pub const FRESH_ENDPOINT: Endpoint = Endpoint {
    live: false,
    generation: 0,
    rights: CapRights { bits: 0 },
    mailbox: 0,
};

pub const FRESH_MAILBOX: Mailbox = Mailbox {
    live: false,
    ring: Ring::FRESH,
    waiter: NOBODY,
    send_holders: 0,
    ephemeral: false,
};
