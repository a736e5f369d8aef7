// Calls in a loop, for measuring: the first byte of the input picks the loop, and the sum of what came out is printed, so that no
// loop can be left out. `bench/calls` times it beside the Rust's.
#![tactic(auto)]

use cap::CapId;
use ipc_rules::state::{Payload, Table};
use std::io::Read;

const ROUNDS: u64 = 1000000;

// The sender's.
const ROW: usize = 3;

// The ids of the first channel that a fresh table makes.
const SEND: CapId = CapId { raw: 65536 };

const RECV: CapId = CapId { raw: 65537 };

// A message in and out on a table that is known to be sound.
fn interior(n: u64) -> u64 {
    let mut t = ipc_life::inner::create(ipc::new(32, 64, 8).table, false).table;
    let mut sum: u64 = 0;
    for i in 0..n {
        let sent = ipc_queue::inner::send(t, SEND, Payload { tag: 1, a: i, b: i }, ROW);
        let got = ipc_queue::inner::try_recv(sent.table, RECV);
        if let Ok(m) = got.answer {
            sum = sum.wrapping_add(m.a);
        }
        t = got.table;
    }
    sum
}

// The same at the border, where each call tests the table first.
fn border(n: u64) -> u64 {
    let mut t = ipc::create_channel(ipc::new(32, 64, 8).table).table;
    let mut sum: u64 = 0;
    for i in 0..n {
        let sent = ipc::send(t, SEND, Payload { tag: 1, a: i, b: i }, ROW);
        let got = ipc::try_recv(sent.table, RECV);
        if let Ok(m) = got.answer {
            sum = sum.wrapping_add(m.a);
        }
        t = got.table;
    }
    sum
}

// The soundness test alone, on a table whose count of refusals changes from turn to turn.
fn tested(n: u64) -> u64 {
    let mut t = ipc::create_channel(ipc::new(32, 64, 8).table).table;
    let mut sum: u64 = 0;
    for i in 0..n {
        if ipc_sound::sound(t) {
            sum = sum.wrapping_add(1);
        }
        t.counters.next_gen = (i % 65535) as u16;
    }
    sum
}

fn run(kind: u8) -> u64 {
    match kind {
        b'i' => interior(ROUNDS),
        b'b' => border(ROUNDS),
        b's' => tested(ROUNDS),
        _ => 0,
    }
}

fn main(rt: HostRuntime) {
    let mut first = [0];
    let _ = rt.stdin().read(&mut first);
    let _ = rt.println(run(first[0]));
}
