// Operations 24, 25 and 26: spawn, leave and give.
ghost use Rattle.std.specs.Prelude.{◌≡◌};
ghost use Rattle.ipc_rules.specs.Sound.{Sound};
ghost use Rattle.operations.specs.Done.{packed};
ghost use Rattle.operations.specs.Joined.{spawn_done, leave_done, give_done};

use crate::operands::{id_at, index_at};
use crate::{Outcome, Tables};
use ipc_rules::showing::woken_shown;
use logread::list_words;
use shown::Answer;

// 24.
pub fn op_spawn(mut t: Tables, log: &[u8]) -> Outcome
    requires { Sound t.channels }
    ensures { result ≡ packed (spawn_done log.now t) }
{
    let words = list_words(log, 4);
    let spawned = joined::inner::spawn(t.channels, t.rows, index_at(log, 3), &words);
    let answer = spawned.answer;
    let waiters = spawned.waiters;
    let channels = spawned.channels;
    let rows = spawned.rows;
    t.channels = channels;
    t.rows = rows;
    Outcome {
        shown: woken_shown(answer, waiters),
        tables: t,
    }
}

// 25.
pub fn op_leave(mut t: Tables, log: &[u8]) -> Outcome
    requires { Sound t.channels }
    ensures { result ≡ packed (leave_done log.now t) }
{
    let left = joined::inner::leave(t.channels, t.rows, index_at(log, 3));
    let answer = left.answer;
    let waiters = left.waiters;
    let channels = left.channels;
    let rows = left.rows;
    t.channels = channels;
    t.rows = rows;
    Outcome {
        shown: woken_shown(answer, waiters),
        tables: t,
    }
}

// 26.
pub fn op_give(mut t: Tables, log: &[u8]) -> Outcome
    requires { Sound t.channels }
    ensures { result ≡ packed (give_done log.now t) }
{
    let row = index_at(log, 3);
    let slot = index_at(log, 4);
    let given = joined::inner::give(t.channels, t.rows, row, slot, id_at(log, 5));
    let answer = given.answer;
    let channels = given.channels;
    let rows = given.rows;
    t.channels = channels;
    t.rows = rows;
    Outcome {
        shown: answer.shown(),
        tables: t,
    }
}
