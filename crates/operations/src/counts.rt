// Operations 5, 9, 11, 12 and 27: what is queued, held and refused, counted.
ghost use Rattle.std.specs.Prelude.{◌≡◌};
ghost use Rattle.ipc_rules.specs.Sound.{Sound};
ghost use Rattle.operations.specs.Done.{packed};
ghost use Rattle.operations.specs.Channels.{queued_done, holders_done, note_authority_done, note_state_done, counts_done};

use crate::operands::id_at;
use crate::reasons::with_reason;
use crate::{Outcome, Tables};
use ipc_rules::opening::Asked;
use shown::Answer;

// 5.
pub fn op_queued(t: Tables, log: &[u8]) -> Outcome
    requires { Sound t.channels }
    ensures { result ≡ packed (queued_done log.now t) }
{
    let cap = id_at(log, 3);
    let answer = ipc_queue::inner::queued(t.channels, cap);
    let shown = with_reason(answer.shown(), t.channels, cap, Asked::Either);
    Outcome { shown, tables: t }
}

// 9.
pub fn op_holders(t: Tables, log: &[u8]) -> Outcome
    requires { Sound t.channels }
    ensures { result ≡ packed (holders_done log.now t) }
{
    let answer = ipc_queue::inner::send_holders(t.channels, id_at(log, 3));
    Outcome {
        shown: answer.shown(),
        tables: t,
    }
}

// 11.
pub fn op_note_authority(mut t: Tables) -> Outcome
    requires { Sound t.channels }
    ensures { result ≡ packed (note_authority_done t) }
{
    let noted = ipc_life::inner::note_authority_refusal(t.channels);
    let answer = noted.answer;
    let channels = noted.table;
    t.channels = channels;
    Outcome {
        shown: answer.shown(),
        tables: t,
    }
}

// 12.
pub fn op_note_state(mut t: Tables) -> Outcome
    requires { Sound t.channels }
    ensures { result ≡ packed (note_state_done t) }
{
    let noted = ipc_life::inner::note_state_refusal(t.channels);
    let answer = noted.answer;
    let channels = noted.table;
    t.channels = channels;
    Outcome {
        shown: answer.shown(),
        tables: t,
    }
}

// 27: a look that nothing refuses.
pub fn op_counts(t: Tables) -> Outcome
    ensures { result ≡ packed (counts_done t) }
{
    let counts = t.channels.counters.refusals;
    Outcome {
        shown: counts.shown(),
        tables: t,
    }
}
