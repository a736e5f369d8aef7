// The operations by their numbers, from 0 up. No enum: the number is a byte of the log, which can be any, and indexes the table of lengths.
pub const NEW: u8 = 0;

pub const CREATE: u8 = 1;

pub const SEND: u8 = 2;

pub const RECEIVE: u8 = 3;

pub const PARK: u8 = 4;

pub const QUEUED: u8 = 5;

pub const REVOKE: u8 = 6;

pub const REGISTER: u8 = 7;

pub const RELEASE: u8 = 8;

pub const HOLDERS: u8 = 9;

pub const CLEAR_WAITER: u8 = 10;

pub const NOTE_AUTHORITY: u8 = 11;

pub const NOTE_STATE: u8 = 12;

pub const GET: u8 = 13;

pub const HOLDS: u8 = 14;

pub const SEED: u8 = 15;

pub const INSTALL: u8 = 16;

pub const TRANSFER: u8 = 17;

pub const DRAIN: u8 = 18;

pub const TASK_MINT: u8 = 19;

pub const TASK_LOOKUP: u8 = 20;

pub const TASK_END: u8 = 21;

pub const IRQ_MINT: u8 = 22;

pub const IRQ_LOOKUP: u8 = 23;

pub const SPAWN: u8 = 24;

pub const LEAVE: u8 = 25;

pub const GIVE: u8 = 26;

pub const COUNTS: u8 = 27;

// There is none above.
pub const LAST: u8 = COUNTS;
