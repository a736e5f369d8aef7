// The tables that lie beside the dispatcher: made, looked at, set, and changed by their own calls.
use crate::op;
use capslots::Table as Rows;
use edgecalls::{channels, rows};
use edgescript::{broken, print};
use ipc_rules::state::Table as Channels;

pub(crate) fn channels<P: Print>(to: &P, op: u8, t: Channels, w: &[u64]) -> Channels {
    let (shown, after) = match op {
        op::NEW => channels::new(w),
        op::REVOKE => channels::revoke(t, w),
        op::RELEASE => channels::release(t, w),
        _ => return broken::set(op, t, w),
    };
    print::answer(to, shown);
    after
}

pub(crate) fn look<P: Print>(to: &P, op: u8, t: Channels, w: &[u64]) {
    let shown = match op {
        op::COUNTS => channels::counts(t),
        op::HOLDERS => channels::holders(t, w),
        broken::LOOK => return broken::look(to, t.counters.next_gen, t.sizes),
        _ => return,
    };
    print::answer(to, shown);
}

// What a drain of a row answers is a look at it: the row stays.
pub(crate) fn rows<P: Print>(to: &P, op: u8, t: Rows, w: &[u64]) -> Rows {
    let (shown, after) = match op {
        op::NEW => return capslots::new(),
        op::ROW => (rows::drain(t, w).0, t),
        op::INSTALL => rows::install(t, w),
        _ => return t,
    };
    print::answer(to, shown);
    after
}
