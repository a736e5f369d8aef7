// The numbers of a call as its operands. What a line does not have is 0; what is too great for an operand wraps.
use cap::{CapId, Slot};
use ipc_rules::state::{Message, Payload, Refusals, TaskId};
use std::array;

pub fn at(w: &[u64], i: usize) -> u64 {
    w.get(i).copied().unwrap_or(0)
}

// The numbers from the i-th on.
pub fn rest(w: &[u64], i: usize) -> &[u64] {
    w.get(i..).unwrap_or(&[])
}

pub fn byte(w: &[u64], i: usize) -> u8 {
    (at(w, i) % 256) as u8
}

pub fn short(w: &[u64], i: usize) -> u16 {
    (at(w, i) % 65536) as u16
}

pub fn long(w: &[u64], i: usize) -> u32 {
    (at(w, i) % 4294967296) as u32
}

pub fn size(w: &[u64], i: usize) -> usize {
    at(w, i) as usize
}

pub fn id(w: &[u64], i: usize) -> CapId {
    CapId { raw: long(w, i) }
}

// Slot and epoch.
pub fn task(w: &[u64]) -> TaskId {
    TaskId {
        slot: short(w, 0),
        epoch: short(w, 1),
    }
}

// Tag, a and b.
pub fn payload(w: &[u64]) -> Payload {
    Payload {
        tag: long(w, 0),
        a: at(w, 1),
        b: at(w, 2),
    }
}

// Those, and the sending row.
pub fn message(w: &[u64]) -> Message {
    Message {
        tag: long(w, 0),
        row: byte(w, 3),
        a: at(w, 1),
        b: at(w, 2),
    }
}

// Four slots as words; a word that does not read is vacant.
pub fn four(w: &[u64]) -> [Slot; 4] {
    array::from_fn(|i| cap::slot_at(w, i))
}

// Authority, full, state.
pub fn refusals(w: &[u64]) -> Refusals {
    Refusals {
        authority: long(w, 0),
        full: long(w, 1),
        state: long(w, 2),
    }
}
