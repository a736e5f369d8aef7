// The operations of the job script by their numbers, from 0 up, bytes of the script as those of a log are.
pub const NEW: u8 = 0;

pub const OPEN: u8 = 1;

pub const CLOSE: u8 = 2;

pub const SEND: u8 = 3;

pub const RECEIVE: u8 = 4;

pub const PARK: u8 = 5;

pub const ROW: u8 = 6;

pub const COUNTS: u8 = 7;

// There is none above.
pub const LAST: u8 = COUNTS;
