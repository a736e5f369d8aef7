// Tries the calls that make, bind and lend ids at their edges, on the compiled code: both mints, `bind`, the calls over references, and an
// id through all generations. The script on standard input is read as that of `edges`, with the numbers of `op` beside. What is expected,
// in the file stdout, is written from document 01.
#![tactic(auto)]

use edgecalls::channels;
use edgescript::script;
use ipc_rules::state::Table as Channels;
use irqcap::Table as Irqs;
use taskcap::Table as Tasks;

mod binding;
mod lending;
mod mints;
mod op;
mod wrap;

// What the calls are made on.
#[derive(Clone, Copy)]
struct All {
    channels: Channels,
    tasks: Tasks,
    irqs: Irqs,
}

impl script::Tables for All {
    fn call<P: Print>(&mut self, to: &P, op: u8, w: &[u64]) {
        self.tasks = mints::tasks(to, op, self.tasks, w);
        self.irqs = mints::irqs(to, op, self.irqs, w);
        channels::look(to, op, self.channels, w);
        self.channels = lending::call(to, op, self.channels, w);
        binding::call(to, op, w);
    }
}

fn main(rt: HostRuntime) {
    let mut all = All {
        channels: channels::fresh(),
        tasks: taskcap::new(),
        irqs: irqcap::new(),
    };
    script::play(&mut rt.stdin(), &rt, &mut all);
}
