// The joined steps: a row and the channels that its ids open, changed together.
//
// These are the steps that anyone may take, on any tables and any operands: each tests the lent channel table first and refuses one that
// is not sound with 27. Crates that have shown their table to be sound call `inner` and do not pay for the test again.
#![tactic(auto)]

ghost use Rattle.std.specs.Prelude.{◌≡◌};
ghost use Rattle.joined.specs.Border.{spawn_call, leave_call, give_call};

use cap::CapId;
use capslots::Table as Rows;
use ipc_rules::state::{NOBODY, Table as Channels};

pub mod answers;
pub mod inner;

pub use answers::{
    GiveAnswer, GiveError, Giving, LeaveAnswer, LeaveError, Leaving, SpawnAnswer, SpawnError,
    Spawning,
};

// A task's first row: what the row held is released, with the waiters to cancel, and each id that is then in it gets a hold.
pub fn spawn(channels: Channels, rows: Rows, row: usize, list: &[u64]) -> Spawning
    ensures { result ≡ spawn_call channels rows row list.now }
{
    if !ipc_sound::sound(channels) {
        return Spawning {
            answer: Err(SpawnError::BadTable),
            waiters: [NOBODY; 4],
            channels,
            rows,
        };
    }
    inner::spawn(channels, rows, row, list)
}

// A task's row taken on its exit, its holds released, and the waiters to cancel.
pub fn leave(channels: Channels, rows: Rows, row: usize) -> Leaving
    ensures { result ≡ leave_call channels rows row }
{
    if !ipc_sound::sound(channels) {
        return Leaving {
            answer: Err(LeaveError::BadTable),
            waiters: [NOBODY; 4],
            channels,
            rows,
        };
    }
    inner::leave(channels, rows, row)
}

// One id more in a row, and its hold.
pub fn give(channels: Channels, rows: Rows, row: usize, slot: usize, id: CapId) -> Giving
    ensures { result ≡ give_call channels rows row slot id }
{
    if !ipc_sound::sound(channels) {
        return Giving {
            answer: Err(GiveError::BadTable),
            channels,
            rows,
        };
    }
    inner::give(channels, rows, row, slot, id)
}
