// Operations 2, 3 and 4: messages sent, received and waited for.
ghost use Rattle.std.specs.Prelude.{◌≡◌};
ghost use Rattle.ipc_rules.specs.Sound.{Sound};
ghost use Rattle.operations.specs.Done.{packed};
ghost use Rattle.operations.specs.Channels.{send_done, receive_done, park_done};

use crate::operands::{id_at, index_at, payload_at, task_at};
use crate::reasons::with_reason;
use crate::{Outcome, Tables};
use ipc_rules::opening::Asked;
use ipc_rules::showing::park_shown;
use shown::Answer;

// 2.
pub fn op_send(mut t: Tables, log: &[u8]) -> Outcome
    requires { Sound t.channels }
    ensures { result ≡ packed (send_done log.now t) }
{
    let cap = id_at(log, 3);
    let sent = ipc_queue::inner::send(t.channels, cap, payload_at(log, 7), index_at(log, 27));
    let answer = sent.answer;
    let shown = with_reason(answer.shown(), t.channels, cap, Asked::Send);
    let channels = sent.table;
    t.channels = channels;
    Outcome { shown, tables: t }
}

// 3.
pub fn op_receive(mut t: Tables, log: &[u8]) -> Outcome
    requires { Sound t.channels }
    ensures { result ≡ packed (receive_done log.now t) }
{
    let cap = id_at(log, 3);
    let received = ipc_queue::inner::try_recv(t.channels, cap);
    let answer = received.answer;
    let shown = with_reason(answer.shown(), t.channels, cap, Asked::Receive);
    let channels = received.table;
    t.channels = channels;
    Outcome { shown, tables: t }
}

// 4.
pub fn op_park(mut t: Tables, log: &[u8]) -> Outcome
    requires { Sound t.channels }
    ensures { result ≡ packed (park_done log.now t) }
{
    let cap = id_at(log, 3);
    let parked = ipc_queue::inner::park(t.channels, cap, task_at(log, 7));
    let answer = parked.answer;
    let shown = with_reason(park_shown(answer), t.channels, cap, Asked::Receive);
    let channels = parked.table;
    t.channels = channels;
    Outcome { shown, tables: t }
}
