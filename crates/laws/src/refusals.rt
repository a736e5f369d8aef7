// Every no, by number, as specs/Refusals.antt has them.
pub const NONE: u8 = 0;

pub const BAD_CAP: u8 = 1;

pub const FULL: u8 = 2;

pub const EMPTY: u8 = 3;

pub const BUSY: u8 = 4;

pub const CANCELLED: u8 = 5;

pub const NO_MAILBOX: u8 = 6;

pub const NO_ENDPOINT: u8 = 7;

pub const OUT_OF_RANGE: u8 = 8;

pub const VACANT: u8 = 9;

pub const BAD_SLOT: u8 = 10;

pub const BAD_FROM_SLOT: u8 = 11;

pub const TO_SLOT_FULL: u8 = 12;

pub const TO_SLOT_OOB: u8 = 13;

pub const UNTRANSFERABLE: u8 = 14;

pub const NO_FREE_ENTRY: u8 = 15;

pub const NO_SUCH_CAPABILITY: u8 = 16;

pub const PACKET_POOL_REQUIRED: u8 = 17;

pub const HELD_VACANT: u8 = 18;

pub const BAD_ROW: u8 = 19;

pub const BAD_SIZES: u8 = 20;

pub const BAD_WORD: u8 = 21;

pub const BAD_MARK: u8 = 22;

pub const BAD_OP: u8 = 23;

pub const SHORT: u8 = 24;

pub const BAD_OPERAND: u8 = 25;

pub const NO_ROOM: u8 = 26;

pub const BAD_TABLE: u8 = 27;

pub const TOO_LONG: u8 = 28;

// The dispatcher's.
pub const NO_VARIANT: u8 = 29;

pub const JOBS_FULL: u8 = 30;

pub const BAD_VARIANTS: u8 = 37;

pub const NO_JOB: u8 = 38;
