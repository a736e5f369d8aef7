// The joined steps, by the numbers of document 01's log. Each function makes one and hands on what is shown of its answer, and both tables.
use capslots::Table as Rows;
use edgecalls::{channels, rows};
use edgescript::operands::{id, rest, size};
use edgescript::{print, script};
use ipc_rules::showing::woken_shown;
use ipc_rules::state::Table as Channels;
use logread::op;
use shown::{Answer, Shown};

#[derive(Clone, Copy)]
pub(crate) struct Both {
    channels: Channels,
    rows: Rows,
}

fn paired(channels: Channels, rows: Rows) -> Both {
    Both { channels, rows }
}

fn spawn(b: &Both, w: &[u64]) -> (Shown, Both) {
    let x = joined::spawn(b.channels, b.rows, size(w, 0), rest(w, 1));
    (woken_shown(x.answer, x.waiters), paired(x.channels, x.rows))
}

fn leave(b: &Both, w: &[u64]) -> (Shown, Both) {
    let x = joined::leave(b.channels, b.rows, size(w, 0));
    (woken_shown(x.answer, x.waiters), paired(x.channels, x.rows))
}

fn give(b: &Both, w: &[u64]) -> (Shown, Both) {
    let x = joined::give(b.channels, b.rows, size(w, 0), size(w, 1), id(w, 2));
    (x.answer.shown(), paired(x.channels, x.rows))
}

impl Both {
    // A call on one of the two, or on none.
    fn single<P: Print>(&mut self, to: &P, op: u8, w: &[u64]) {
        channels::look(to, op, self.channels, w);
        self.channels = channels::call(to, op, self.channels, w);
        self.rows = rows::call(to, op, self.rows, w);
    }
}

impl script::Tables for Both {
    fn call<P: Print>(&mut self, to: &P, op: u8, w: &[u64]) {
        let (shown, after) = match op {
            op::SPAWN => spawn(self, w),
            op::LEAVE => leave(self, w),
            op::GIVE => give(self, w),
            _ => return self.single(to, op, w),
        };
        print::answer(to, shown);
        *self = after;
    }
}

// Sizes 0, 0, 1 and vacant rows. The seeding changes nothing and is there for the optimiser's sake: without it the rows are copied slot by
// slot wherever they are handed on, and the program takes ten times as long to compile.
pub(crate) fn fresh() -> Both {
    let rows = capslots::seed(capslots::new(), 0, &[0]).table;
    paired(channels::fresh(), rows)
}
