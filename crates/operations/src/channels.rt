// Operations 0, 1, 6 and 10: channels made and revoked, and a task that waits no more.
ghost use Rattle.std.specs.Prelude.{◌≡◌};
ghost use Rattle.ipc_rules.specs.Sound.{Sound};
ghost use Rattle.operations.specs.Done.{packed};
ghost use Rattle.operations.specs.Channels.{new_done, create_done, revoke_done, clear_done};

use crate::fresh::all_fresh;
use crate::operands::{id_at, sizes_at, task_at};
use crate::{Outcome, Tables};
use logread::byte_at;
use shown::Answer;

// 0: every table fresh, or all of them kept.
pub fn op_new(t: Tables, log: &[u8]) -> Outcome
    ensures { result ≡ packed (new_done log.now t) }
{
    let made = all_fresh(sizes_at(log, 3));
    let answer = made.answer;
    let shown = answer.shown();
    let Ok(()) = answer else {
        return Outcome { shown, tables: t };
    };
    let tables = made.tables;
    Outcome { shown, tables }
}

// 1: any flag but 0 asks for an ephemeral channel.
pub fn op_create(mut t: Tables, log: &[u8]) -> Outcome
    requires { Sound t.channels }
    ensures { result ≡ packed (create_done log.now t) }
{
    let created = ipc_life::inner::create(t.channels, byte_at(log, 3) != 0);
    let answer = created.answer;
    let channels = created.table;
    t.channels = channels;
    Outcome {
        shown: answer.shown(),
        tables: t,
    }
}

// 6.
pub fn op_revoke(mut t: Tables, log: &[u8]) -> Outcome
    requires { Sound t.channels }
    ensures { result ≡ packed (revoke_done log.now t) }
{
    let revoked = ipc_life::inner::revoke_channel(t.channels, id_at(log, 3));
    let answer = revoked.answer;
    let channels = revoked.table;
    t.channels = channels;
    Outcome {
        shown: answer.shown(),
        tables: t,
    }
}

// 10.
pub fn op_clear_waiter(mut t: Tables, log: &[u8]) -> Outcome
    requires { Sound t.channels }
    ensures { result ≡ packed (clear_done log.now t) }
{
    let cleared = ipc_life::inner::clear_waiter(t.channels, task_at(log, 3));
    let answer = cleared.answer;
    let channels = cleared.table;
    t.channels = channels;
    Outcome {
        shown: answer.shown(),
        tables: t,
    }
}
