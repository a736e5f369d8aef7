// Reads an operation log on standard input, prints what replay prints of it, and then every field of every table, one a line. Each
// function answers whether what it prints was written whole, and goes on after a line that was not.
#![tactic(auto)]

use cap::Slot;
use capslots::Table as Rows;
use ipc_rules::state::{Endpoint, MAX_DEPTH, Mailbox, Message, Table as Channels, Waiter};
use mint::Entry;
use operations::Tables;

fn head<P: Print>(to: &P, t: &Channels) -> bool {
    let sizes = t.sizes;
    let counts = t.counters.refusals;
    println!(to; "channels m {}", sizes.mailboxes).is_ok()
        & println!(to; "channels e {}", sizes.endpoints).is_ok()
        & println!(to; "channels d {}", sizes.depth).is_ok()
        & println!(to; "channels next {}", t.counters.next_gen).is_ok()
        & println!(to; "counts authority {}", counts.authority).is_ok()
        & println!(to; "counts full {}", counts.full).is_ok()
        & println!(to; "counts state {}", counts.state).is_ok()
}

fn waiter<P: Print>(to: &P, i: usize, w: Waiter) -> bool {
    if !w.present {
        return println!(to; "mailbox {i} waiter 0").is_ok();
    }
    println!(to; "mailbox {i} waiter 1 {} {}", w.task.slot, w.task.epoch).is_ok()
}

fn mailbox<P: Print>(to: &P, i: usize, b: &Mailbox) -> bool {
    println!(to; "mailbox {i} live {}", b.is_live() as u8).is_ok()
        & println!(to; "mailbox {i} ephemeral {}", b.ephemeral as u8).is_ok()
        & println!(to; "mailbox {i} holds {}", b.send_holders).is_ok()
        & println!(to; "mailbox {i} head {}", b.ring.head).is_ok()
        & println!(to; "mailbox {i} tail {}", b.ring.tail).is_ok()
        & println!(to; "mailbox {i} length {}", b.ring.len).is_ok()
        & waiter(to, i, b.waiter)
}

fn place<P: Print>(to: &P, i: usize, p: usize, m: &Message) -> bool {
    println!(to; "mailbox {i} place {p} {} {} {} {}", m.tag, m.a, m.b, m.row).is_ok()
}

fn endpoint<P: Print>(to: &P, i: usize, e: &Endpoint) -> bool {
    println!(to; "endpoint {i} live {}", e.is_live() as u8).is_ok()
        & println!(to; "endpoint {i} generation {}", e.generation).is_ok()
        & println!(to; "endpoint {i} rights {}", e.rights.bits).is_ok()
        & println!(to; "endpoint {i} mailbox {}", e.mailbox).is_ok()
}

fn channels<P: Print>(to: &P, t: &Channels) -> bool {
    let mut whole = head(to, t);
    let boxes = t.mailboxes.iter().zip(t.messages.chunks(MAX_DEPTH));
    for (i, (b, ring)) in boxes.enumerate().take(t.sizes.mailboxes) {
        whole &= mailbox(to, i, b);
        for (p, m) in ring.iter().enumerate().take(t.sizes.depth) {
            whole &= place(to, i, p, m);
        }
    }
    for (i, e) in t.endpoints.iter().enumerate().take(t.sizes.endpoints) {
        whole &= endpoint(to, i, e);
    }
    whole
}

fn slot<P: Print>(to: &P, r: usize, s: usize, x: &Slot) -> bool {
    if !x.present {
        return println!(to; "row {r} slot {s} 0").is_ok();
    }
    println!(to; "row {r} slot {s} 1 {}", x.id.raw).is_ok()
}

fn rows<P: Print>(to: &P, t: &Rows) -> bool {
    let mut whole = true;
    for (r, row) in t.rows.iter().enumerate() {
        for (s, x) in row.slots.iter().enumerate() {
            whole &= slot(to, r, s, x);
        }
    }
    whole
}

// The entries of a mint table.
fn entries<P: Print>(to: &P, table: &str, all: &[Entry]) -> bool {
    let mut whole = true;
    for (i, x) in all.iter().enumerate() {
        whole &= println!(to; "{table} {i} live {}", x.live as u8).is_ok()
            & println!(to; "{table} {i} generation {}", x.generation).is_ok()
            & println!(to; "{table} {i} number {}", x.number).is_ok();
    }
    whole
}

fn tables<P: Print>(to: &P, t: &Tables) -> bool {
    channels(to, &t.channels)
        & rows(to, &t.rows)
        & entries(to, "task", &t.tasks.entries)
        & entries(to, "irq", &t.irqs.entries)
}

fn main(rt: HostRuntime) {
    let played = player::play(&rt);
    if played.whole && !tables(&rt, &played.tables) {
        standard::tell_unwritten(&rt);
    }
}
