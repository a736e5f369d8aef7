// Messages by row and slot: the id that stands there, and then the channel table's own call.
ghost use Rattle.std.specs.Prelude.{◌≡◌};
ghost use Rattle.ipc_rules.specs.Sound.{Sound};
ghost use Rattle.dispatcher_rules.specs.Slots.{slot_send_of, slot_recv_of, slot_park_of};

use capslots::Table as Rows;
use dispatcher_rules::answers::{BySlotError, SlotParking, SlotReceiving, SlotSending};
use dispatcher_rules::state::Dispatcher;
use ipc_rules::state::{Payload, Table as Channels, TaskId};

// Sends by the id in a slot; the message is stamped with the row.
pub fn send(
    d: Dispatcher,
    rows: Rows,
    channels: Channels,
    row: usize,
    slot: usize,
    payload: Payload,
) -> SlotSending
    requires { Sound channels }
    ensures { result ≡ slot_send_of d rows channels row slot payload }
{
    match capslots::get(rows, row, slot) {
        Ok(id) => {
            let sent = ipc_queue::inner::send(channels, id, payload, row);
            let answer = sent.answer;
            let after = sent.table;
            SlotSending {
                answer: Ok(answer),
                dispatcher: d,
                rows,
                channels: after,
            }
        }
        Err(refusal) => SlotSending {
            answer: Err(BySlotError::from(refusal)),
            dispatcher: d,
            rows,
            channels,
        },
    }
}

// Tries to receive by the id in a slot.
pub fn receive(
    d: Dispatcher,
    rows: Rows,
    channels: Channels,
    row: usize,
    slot: usize,
) -> SlotReceiving
    requires { Sound channels }
    ensures { result ≡ slot_recv_of d rows channels row slot }
{
    match capslots::get(rows, row, slot) {
        Ok(id) => {
            let received = ipc_queue::inner::try_recv(channels, id);
            let answer = received.answer;
            let after = received.table;
            SlotReceiving {
                answer: Ok(answer),
                dispatcher: d,
                rows,
                channels: after,
            }
        }
        Err(refusal) => SlotReceiving {
            answer: Err(BySlotError::from(refusal)),
            dispatcher: d,
            rows,
            channels,
        },
    }
}

// Parks by the id in a slot: the receiving that waits.
pub fn park(
    d: Dispatcher,
    rows: Rows,
    channels: Channels,
    row: usize,
    slot: usize,
    me: TaskId,
) -> SlotParking
    requires { Sound channels }
    ensures { result ≡ slot_park_of d rows channels row slot me }
{
    match capslots::get(rows, row, slot) {
        Ok(id) => {
            let parked = ipc_queue::inner::park(channels, id, me);
            let answer = parked.answer;
            let after = parked.table;
            SlotParking {
                answer: Ok(answer),
                dispatcher: d,
                rows,
                channels: after,
            }
        }
        Err(refusal) => SlotParking {
            answer: Err(BySlotError::from(refusal)),
            dispatcher: d,
            rows,
            channels,
        },
    }
}
