// The numbers of what no log can say. Those of document 01's operations, 0 to 27, are in `logread::op`, and those that look at the channel
// table and set a part of it, 100 to 104, in `edgescript::broken`.

// `bind`, on words and on lent records: packet pool; four wanted indices, 256 for none; the held list.
pub(crate) const BIND: u8 = 110;

pub(crate) const BIND_LENT: u8 = 111;

// `register_holds` on lent records.
pub(crate) const REGISTER_LENT: u8 = 112;

// The note calls on lent counts: authority, full, state, which are answered as they are afterwards.
pub(crate) const NOTE_AUTHORITY_LENT: u8 = 113;

pub(crate) const NOTE_STATE_LENT: u8 = 114;

// A fresh task table, with entry 0 minted and ended 65,534 times.
pub(crate) const WEAR: u8 = 120;

// The edge that needs 65,535 creations, on a table of its own.
pub(crate) const WRAP: u8 = 121;
