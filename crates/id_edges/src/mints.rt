// The two mint tables' calls, by the numbers of document 01's log, and a worn task entry. Each function shows an answer and hands the
// table on.
use crate::op;
use edgescript::operands::{id, long};
use edgescript::print;
use irqcap::Table as Irqs;
use logread::op as logged;
use shown::Answer;
use taskcap::Table as Tasks;

// Entry 0 of a fresh table minted and ended 65,534 times.
fn worn() -> Tasks {
    let mut t = taskcap::new();
    for _ in 0..65534 {
        let minted = taskcap::mint(t, 7).table;
        t = taskcap::revoke_task(minted, 7).table;
    }
    t
}

pub(crate) fn tasks<P: Print>(to: &P, op: u8, t: Tasks, w: &[u64]) -> Tasks {
    let (shown, after) = match op {
        logged::TASK_MINT => {
            let x = taskcap::mint(t, long(w, 0));
            (x.answer.shown(), x.table)
        }
        logged::TASK_LOOKUP => (taskcap::lookup(t, id(w, 0)).shown(), t),
        logged::TASK_END => {
            let x = taskcap::revoke_task(t, long(w, 0));
            (taskcap::revoke_shown(x.count), x.table)
        }
        op::WEAR => return worn(),
        _ => return t,
    };
    print::answer(to, shown);
    after
}

pub(crate) fn irqs<P: Print>(to: &P, op: u8, t: Irqs, w: &[u64]) -> Irqs {
    let (shown, after) = match op {
        logged::IRQ_MINT => {
            let x = irqcap::mint(t, long(w, 0));
            (x.answer.shown(), x.table)
        }
        logged::IRQ_LOOKUP => (irqcap::lookup(t, id(w, 0)).shown(), t),
        _ => return t,
    };
    print::answer(to, shown);
    after
}
