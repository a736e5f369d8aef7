// Parts of the channel table set and looked at: this way come tables that no call makes.
use crate::operands::{at, byte, long, message, refusals, rest, short, size, task};
use cap::CapRights;
use ipc_rules::state::{
    Counters, Endpoint, MAX_DEPTH, MAX_ENDPOINTS, MAX_MAILBOXES, Mailbox, Sizes, Table, Waiter,
};
use ring::Ring;

// Next generation, m, e and d of the channel table.
pub const LOOK: u8 = 100;

// Each sets a part of the channel table, sound or not; nothing is answered. Sizes and counters: m, e, d; next generation; authority, full, state.
pub const SET_HEAD: u8 = 101;

// An endpoint: its place; live, generation, rights, mailbox.
pub const SET_ENDPOINT: u8 = 102;

// A mailbox: its place; live; head, tail, length; whether one waits, slot, epoch; holds; ephemeral.
pub const SET_MAILBOX: u8 = 103;

// A message: its place; tag, a, b, row.
pub const SET_MESSAGE: u8 = 104;

const MAX_MESSAGES: usize = MAX_MAILBOXES * MAX_DEPTH;

fn sizes(w: &[u64]) -> Sizes {
    Sizes {
        mailboxes: size(w, 0),
        endpoints: size(w, 1),
        depth: size(w, 2),
    }
}

fn counters(w: &[u64]) -> Counters {
    Counters {
        next_gen: short(w, 0),
        refusals: refusals(rest(w, 1)),
    }
}

fn endpoint(w: &[u64]) -> Endpoint {
    Endpoint {
        live: at(w, 0) == 1,
        generation: short(w, 1),
        rights: CapRights { bits: byte(w, 2) },
        mailbox: byte(w, 3),
    }
}

fn mailbox(w: &[u64]) -> Mailbox {
    Mailbox {
        live: at(w, 0) == 1,
        ring: Ring {
            head: size(w, 1),
            tail: size(w, 2),
            len: size(w, 3),
        },
        waiter: Waiter {
            present: at(w, 4) == 1,
            task: task(rest(w, 5)),
        },
        send_holders: long(w, 7),
        ephemeral: at(w, 8) == 1,
    }
}

// The part that the number names; the table as it was where it names none.
pub fn set(op: u8, mut t: Table, w: &[u64]) -> Table {
    match op {
        SET_HEAD => {
            t.sizes = sizes(w);
            t.counters = counters(rest(w, 3));
        }
        SET_ENDPOINT => t.endpoints[size(w, 0) % MAX_ENDPOINTS] = endpoint(rest(w, 1)),
        SET_MAILBOX => t.mailboxes[size(w, 0) % MAX_MAILBOXES] = mailbox(rest(w, 1)),
        SET_MESSAGE => t.messages[size(w, 0) % MAX_MESSAGES] = message(rest(w, 1)),
        _ => {}
    }
    t
}

// Next generation, m, e and d.
pub fn look<P: Print>(to: &P, next: u16, z: Sizes) {
    let _ = print!(to; " {next} {} {} {}", z.mailboxes, z.endpoints, z.depth);
}
