// The channel table's calls, by the numbers of document 01's log. Each function makes a call and hands on what is shown of its answer, and
// the table.
use edgescript::operands::{at, four, id, payload, rest, size, task};
use edgescript::{broken, print};
use ipc_rules::opening::Asked;
use ipc_rules::showing::{park_shown, woken_shown};
use ipc_rules::state::Table;
use logread::op;
use shown::{Answer, Shown};

// Why an id opens nothing: 0 for send, 1 for receive, 2 for either, 3 for a revocation; the id.
pub const WHY_SHUT: u8 = 105;

// Where a script starts: sizes 0, 0, 1.
pub fn fresh() -> Table {
    ipc::new(0, 0, 1).table
}

// With 20 the next calls are made on the table of sizes 0, 0, 1 that comes back.
pub fn new(w: &[u64]) -> (Shown, Table) {
    let x = ipc::new(size(w, 0), size(w, 1), size(w, 2));
    (x.answer.shown(), x.table)
}

fn create(t: Table, w: &[u64]) -> (Shown, Table) {
    let x = if at(w, 0) == 1 {
        ipc::create_channel_ephemeral(t)
    } else {
        ipc::create_channel(t)
    };
    (x.answer.shown(), x.table)
}

fn send(t: Table, w: &[u64]) -> (Shown, Table) {
    let x = ipc::send(t, id(w, 0), payload(rest(w, 1)), size(w, 4));
    (x.answer.shown(), x.table)
}

fn receive(t: Table, w: &[u64]) -> (Shown, Table) {
    let x = ipc::try_recv(t, id(w, 0));
    (x.answer.shown(), x.table)
}

fn park(t: Table, w: &[u64]) -> (Shown, Table) {
    let x = ipc::park(t, id(w, 0), task(rest(w, 1)));
    (park_shown(x.answer), x.table)
}

pub fn revoke(t: Table, w: &[u64]) -> (Shown, Table) {
    let x = ipc::revoke_channel(t, id(w, 0));
    (x.answer.shown(), x.table)
}

fn register(t: Table, w: &[u64]) -> (Shown, Table) {
    let x = ipc::register_holds(t, w);
    (x.answer.shown(), x.table)
}

pub fn release(t: Table, w: &[u64]) -> (Shown, Table) {
    let x = ipc::release_holds(t, four(w));
    (woken_shown(x.answer, x.waiters), x.table)
}

fn clear_waiter(t: Table, w: &[u64]) -> (Shown, Table) {
    let x = ipc::clear_waiter(t, task(w));
    (x.answer.shown(), x.table)
}

fn note(op: u8, t: Table) -> (Shown, Table) {
    let x = if op == op::NOTE_AUTHORITY {
        ipc::note_authority_refusal(t)
    } else {
        ipc::note_state_refusal(t)
    };
    (x.answer.shown(), x.table)
}

pub fn holders(t: Table, w: &[u64]) -> Shown {
    ipc::send_holders(t, id(w, 0)).shown()
}

// What an id is tried for, by a number.
fn asked(n: u64) -> Asked {
    match n {
        0 => Asked::Send,
        1 => Asked::Receive,
        2 => Asked::Either,
        _ => Asked::Revocation,
    }
}

pub fn counts(t: Table) -> Shown {
    ipc::refusals(t).shown()
}

// The calls that may change the table, with their answers printed.
pub fn call<P: Print>(to: &P, op: u8, t: Table, w: &[u64]) -> Table {
    let (shown, after) = match op {
        op::NEW => new(w),
        op::CREATE => create(t, w),
        op::SEND => send(t, w),
        op::RECEIVE => receive(t, w),
        op::PARK => park(t, w),
        op::REVOKE => revoke(t, w),
        op::REGISTER => register(t, w),
        op::RELEASE => release(t, w),
        op::CLEAR_WAITER => clear_waiter(t, w),
        op::NOTE_AUTHORITY | op::NOTE_STATE => note(op, t),
        _ => return broken::set(op, t, w),
    };
    print::answer(to, shown);
    after
}

// Those that leave it as it is.
pub fn look<P: Print>(to: &P, op: u8, t: Table, w: &[u64]) {
    let shown = match op {
        op::QUEUED => ipc::queued(t, id(w, 0)).shown(),
        op::HOLDERS => holders(t, w),
        op::COUNTS => counts(t),
        WHY_SHUT => ipc::why_shut(t, id(w, 1), asked(at(w, 0))).shown(),
        broken::LOOK => return broken::look(to, t.counters.next_gen, t.sizes),
        _ => return,
    };
    print::answer(to, shown);
}
