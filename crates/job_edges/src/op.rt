// The numbers of the script's calls. 0 to 7 are the job script's operations, but that 0 makes the channel table and the rows alone, and that
// a row, slot or place may be any number. A tag is five numbers. Those that look at the channel table and set a part of it, 100 to
// 104, are in `edgescript::broken`.

// m, e, d.
pub(crate) const NEW: u8 = 0;

// The tag, and the extractor's row.
pub(crate) const OPEN: u8 = 1;

pub(crate) const CLOSE: u8 = 2;

pub(crate) const SEND: u8 = 3;

pub(crate) const RECEIVE: u8 = 4;

pub(crate) const PARK: u8 = 5;

pub(crate) const ROW: u8 = 6;

pub(crate) const COUNTS: u8 = 7;

// A dispatcher made of the variants that stand in the present one: how many.
pub(crate) const MAKE: u8 = 10;

// Each sets a part of the dispatcher, whether it then keeps making's rules or not; nothing is answered. A variant: its place; tag, row.
pub(crate) const SET_VARIANT: u8 = 11;

pub(crate) const SET_COUNT: u8 = 12;

// The tables' own calls. An id's revocation and its holds; a release of four words; an install of an id at row and slot.
pub(crate) const REVOKE: u8 = 20;

pub(crate) const RELEASE: u8 = 21;

pub(crate) const HOLDERS: u8 = 22;

pub(crate) const INSTALL: u8 = 23;
