// Operations 3, 4 and 5: messages sent, received and waited for, by row and slot.
ghost use Rattle.std.specs.Prelude.{◌≡◌};
ghost use Rattle.jobscript.specs.Done.{packed, ReadyDesk};
ghost use Rattle.jobscript.specs.Operations.{send_done, receive_done, park_done};

use crate::Outcome;
use crate::operands::{index_at, payload, task};
use dispatcher_rules::showing::slot_park_shown;
use dispatcher_rules::state::Desk;
use shown::Answer;

// 3.
pub fn op_send(mut desk: Desk, script: &[u8]) -> Outcome
    requires { ReadyDesk desk }
    ensures { result ≡ packed (send_done script.now desk) }
{
    let row = index_at(script, 3);
    let slot = index_at(script, 4);
    let handed = payload(script);
    let sent = dispatcher::inner::send(
        desk.dispatcher,
        desk.rows,
        desk.channels,
        row,
        slot,
        handed,
    );
    let answer = sent.answer;
    let dispatcher = sent.dispatcher;
    let rows = sent.rows;
    let channels = sent.channels;
    desk.dispatcher = dispatcher;
    desk.rows = rows;
    desk.channels = channels;
    Outcome {
        shown: answer.shown(),
        desk,
    }
}

// 4.
pub fn op_receive(mut desk: Desk, script: &[u8]) -> Outcome
    requires { ReadyDesk desk }
    ensures { result ≡ packed (receive_done script.now desk) }
{
    let row = index_at(script, 3);
    let slot = index_at(script, 4);
    let received = dispatcher::inner::receive(desk.dispatcher, desk.rows, desk.channels, row, slot);
    let answer = received.answer;
    let dispatcher = received.dispatcher;
    let rows = received.rows;
    let channels = received.channels;
    desk.dispatcher = dispatcher;
    desk.rows = rows;
    desk.channels = channels;
    Outcome {
        shown: answer.shown(),
        desk,
    }
}

// 5.
pub fn op_park(mut desk: Desk, script: &[u8]) -> Outcome
    requires { ReadyDesk desk }
    ensures { result ≡ packed (park_done script.now desk) }
{
    let row = index_at(script, 3);
    let slot = index_at(script, 4);
    let me = task(script);
    let parked = dispatcher::inner::park(desk.dispatcher, desk.rows, desk.channels, row, slot, me);
    let answer = parked.answer;
    let dispatcher = parked.dispatcher;
    let rows = parked.rows;
    let channels = parked.channels;
    desk.dispatcher = dispatcher;
    desk.rows = rows;
    desk.channels = channels;
    Outcome {
        shown: slot_park_shown(answer),
        desk,
    }
}
