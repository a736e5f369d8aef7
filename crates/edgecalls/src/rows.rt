// The capability rows' calls, by the numbers of document 01's log. Each function makes a call and hands on what is shown of its answer, and
// the table.
use capslots::Table;
use edgescript::operands::{id, rest, size};
use edgescript::print;
use logread::op;
use shown::{Answer, Shown};

fn get(t: Table, w: &[u64]) -> (Shown, Table) {
    (capslots::get(t, size(w, 0), size(w, 1)).shown(), t)
}

fn holds(t: Table, w: &[u64]) -> (Shown, Table) {
    let held = capslots::holds(t, size(w, 0), id(w, 1));
    (capslots::holds_shown(held), t)
}

fn seed(t: Table, w: &[u64]) -> (Shown, Table) {
    let x = capslots::seed(t, size(w, 0), rest(w, 1));
    (x.answer.shown(), x.table)
}

pub fn install(t: Table, w: &[u64]) -> (Shown, Table) {
    let x = capslots::install(t, size(w, 0), size(w, 1), id(w, 2));
    (x.answer.shown(), x.table)
}

fn transfer(t: Table, w: &[u64]) -> (Shown, Table) {
    let x = capslots::transfer(t, size(w, 0), size(w, 1), size(w, 2), size(w, 3));
    (x.answer.shown(), x.table)
}

pub fn drain(t: Table, w: &[u64]) -> (Shown, Table) {
    let x = capslots::drain(t, size(w, 0));
    (capslots::drain_shown(x.slots), x.table)
}

// With their answers printed.
pub fn call<P: Print>(to: &P, op: u8, t: Table, w: &[u64]) -> Table {
    let (shown, after) = match op {
        op::GET => get(t, w),
        op::HOLDS => holds(t, w),
        op::SEED => seed(t, w),
        op::INSTALL => install(t, w),
        op::TRANSFER => transfer(t, w),
        op::DRAIN => drain(t, w),
        _ => return t,
    };
    print::answer(to, shown);
    after
}
