// Document 01's edge that no log is long enough for: channel 1 is revoked at once; its ids open nothing through 65,534 more creations,
// and after the next they open again. One mailbox serves every channel, so each creation takes the first one's ends.
use cap::CapId;
use edgescript::print;
use ipc_rules::answers::CreateAnswer;
use ipc_rules::state::{Channel, Table};
use shown::Answered;

const CLOSED: u32 = 65534;

fn first() -> Answered<CreateAnswer, Table> {
    ipc::create_channel(ipc::new(1, 2, 1).table)
}

// The ids of a creation, which succeeds: both 0 would show that it did not.
fn made(a: CreateAnswer) -> Channel {
    match a {
        Ok(c) => c,
        Err(_) => Channel {
            send: CapId { raw: 0 },
            recv: CapId { raw: 0 },
        },
    }
}

// The next creation, after the last one's channel is revoked.
fn next(x: Answered<CreateAnswer, Table>) -> Answered<CreateAnswer, Table> {
    let r = ipc::revoke_channel(x.table, made(x.answer).send);
    ipc::create_channel(r.table)
}

fn opens(t: Table, id: CapId) -> bool {
    ipc::queued(t, id).is_ok()
}

fn ids<P: Print>(to: &P, c: Channel) {
    let _ = print!(to; " ids {} {}", c.send.raw, c.recv.raw);
}

// How many of the creations were such that an id opened after them.
fn turned<P: Print>(to: &P, opened: u32) {
    if opened == 0 {
        print::text(to, b" after each its ids opened nothing");
    } else {
        print::value(to, opened as u64);
    }
}

pub(crate) fn edges<P: Print>(to: &P) {
    let mut x = first();
    let c = made(x.answer);
    ids(to, c);
    print::text(to, b", revoked at once\n65534 more creations:");
    let mut opened = 0;
    for i in 0..CLOSED {
        x = next(x);
        if opens(x.table, c.send) | opens(x.table, c.recv) {
            opened = i + 1;
        }
    }
    turned(to, opened);
    print::text(to, b"\nthe last of these:");
    ids(to, made(x.answer));
    print::text(to, b"\none more:");
    x = next(x);
    ids(to, made(x.answer));
    print::text(to, b"\nwhether its ids open now, send and receive:");
    print::value(to, opens(x.table, c.send) as u64);
    print::value(to, opens(x.table, c.recv) as u64);
}
