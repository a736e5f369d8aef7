// What each operation of the log does to the tables, and what its line shows.
//
// `inner::apply` is lent tables whose channel table is known to be sound, and leaves one that is; the other modules are its own.
#![tactic(auto)]

mod channels;
mod counts;
mod fresh;
mod holds;
pub mod inner;
mod joined_steps;
mod messages;
mod mints;
mod operands;
mod reasons;
mod rows;

use capslots::Table as Rows;
pub use fresh::{Fresh, all_fresh};
use ipc_rules::state::Table as Channels;
use irqcap::Table as Irqs;
use shown::Shown;
use taskcap::Table as Tasks;

// Everything that the log's operations change.
#[derive(Clone, Copy)]
pub struct Tables {
    pub channels: Channels,
    pub rows: Rows,
    pub tasks: Tasks,
    pub irqs: Irqs,
}

#[derive(Clone, Copy)]
pub struct Outcome {
    pub shown: Shown,
    pub tables: Tables,
}
