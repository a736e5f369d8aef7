// Operations 7 and 8: the holds of a list, registered and released.
ghost use Rattle.std.specs.Prelude.{◌≡◌};
ghost use Rattle.ipc_rules.specs.Sound.{Sound};
ghost use Rattle.operations.specs.Done.{packed};
ghost use Rattle.operations.specs.Holds.{register_done, release_done};

use crate::{Outcome, Tables};
use ipc_rules::showing::woken_shown;
use logread::{list_slots, list_words};
use shown::Answer;

// 7.
pub fn op_register(mut t: Tables, log: &[u8]) -> Outcome
    requires { Sound t.channels }
    ensures { result ≡ packed (register_done log.now t) }
{
    let words = list_words(log, 3);
    let registered = ipc_holds::inner::register_holds(t.channels, &words);
    let answer = registered.answer;
    let channels = registered.table;
    t.channels = channels;
    Outcome {
        shown: answer.shown(),
        tables: t,
    }
}

// 8.
pub fn op_release(mut t: Tables, log: &[u8]) -> Outcome
    requires { Sound t.channels }
    ensures { result ≡ packed (release_done log.now t) }
{
    let released = ipc_holds::inner::release_holds(t.channels, list_slots(log, 3));
    let answer = released.answer;
    let waiters = released.waiters;
    let channels = released.table;
    t.channels = channels;
    Outcome {
        shown: woken_shown(answer, waiters),
        tables: t,
    }
}
