// The dispatcher's calls. Each function makes one and hands on what is shown of its answer, and what it was lent.
use crate::binding::tag;
use crate::{beside, binding, op};
use capslots::Table as Rows;
use dispatcher_rules::showing::slot_park_shown;
use dispatcher_rules::state::{Desk, Dispatcher};
use edgecalls::channels;
use edgescript::operands::{payload, rest, size, task};
use edgescript::{print, script};
use ipc_rules::state::Table as Channels;
use shown::{Answer, Shown};

// What the calls are lent.
#[derive(Clone, Copy)]
pub(crate) struct Lent {
    desk: Desk,
}

fn desk(dispatcher: Dispatcher, rows: Rows, channels: Channels) -> Desk {
    Desk {
        dispatcher,
        rows,
        channels,
    }
}

fn open(d: &Desk, w: &[u64]) -> (Shown, Desk) {
    let x = dispatcher::open(d.dispatcher, d.rows, d.channels, tag(w), size(w, 5));
    (x.answer.shown(), desk(x.dispatcher, x.rows, x.channels))
}

fn close(d: &Desk, w: &[u64]) -> (Shown, Desk) {
    let x = dispatcher::close(d.dispatcher, d.rows, d.channels, size(w, 0));
    (x.answer.shown(), desk(x.dispatcher, x.rows, x.channels))
}

fn send(d: &Desk, w: &[u64]) -> (Shown, Desk) {
    let p = payload(rest(w, 2));
    let x = dispatcher::send(d.dispatcher, d.rows, d.channels, size(w, 0), size(w, 1), p);
    (x.answer.shown(), desk(x.dispatcher, x.rows, x.channels))
}

fn receive(d: &Desk, w: &[u64]) -> (Shown, Desk) {
    let x = dispatcher::receive(d.dispatcher, d.rows, d.channels, size(w, 0), size(w, 1));
    (x.answer.shown(), desk(x.dispatcher, x.rows, x.channels))
}

fn park(d: &Desk, w: &[u64]) -> (Shown, Desk) {
    let me = task(rest(w, 2));
    let x = dispatcher::park(d.dispatcher, d.rows, d.channels, size(w, 0), size(w, 1), me);
    (
        slot_park_shown(x.answer),
        desk(x.dispatcher, x.rows, x.channels),
    )
}

impl Lent {
    // A call on one of the three.
    fn single<P: Print>(&mut self, to: &P, op: u8, w: &[u64]) {
        let d = &mut self.desk;
        beside::look(to, op, d.channels, w);
        d.dispatcher = binding::call(to, op, d.dispatcher, w);
        d.rows = beside::rows(to, op, d.rows, w);
        d.channels = beside::channels(to, op, d.channels, w);
    }
}

impl script::Tables for Lent {
    fn call<P: Print>(&mut self, to: &P, op: u8, w: &[u64]) {
        let d = &self.desk;
        let (shown, after) = match op {
            op::OPEN => open(d, w),
            op::CLOSE => close(d, w),
            op::SEND => send(d, w),
            op::RECEIVE => receive(d, w),
            op::PARK => park(d, w),
            _ => return self.single(to, op, w),
        };
        print::answer(to, shown);
        self.desk = after;
    }
}

pub(crate) fn fresh() -> Lent {
    Lent {
        desk: desk(binding::fresh(), capslots::new(), channels::fresh()),
    }
}
