// The job dispatcher: tags bound to rows, and jobs that are opened for a tag, worked on by row and slot, and closed. Ours; request No. 5.
//
// These are the calls that anyone may make, on any tables and any operands: each but `make` tests the lent channel table and the lent
// dispatcher first, and refuses with 27. Crates that have shown both to be fit call `inner` and do not pay for the test again.
#![tactic(auto)]

ghost use Rattle.std.specs.Prelude.{◌≡◌, true};
ghost use Rattle.dispatcher_rules.specs.Border.{Ready, ready_test, open_job_call, close_job_call, slot_send_call, slot_recv_call, slot_park_call};

use capslots::Table as Rows;
use dispatcher_rules::answers::{
    BySlotError, CloseError, JobClosing, JobOpening, OpenError, SlotParking, SlotReceiving,
    SlotSending,
};
use dispatcher_rules::state::{Dispatcher, Tag};
use ipc_rules::state::{Payload, Table as Channels, TaskId};

pub mod binding;
pub mod inner;

pub use binding::make;

// The answer is the test's, and what passes it is fit for the calls.
pub fn ready(d: Dispatcher, channels: Channels) -> bool
    ensures { (result ≡ ready_test d channels) × (result ≡ true → Ready d channels) }
{
    let variants = d.variants;
    ipc_sound::sound(channels) & binding::bound(d.count, variants)
}

// A job for the tag: a new channel, its send id in the extractor's row, its receive id in the row that the tag is bound to.
pub fn open(d: Dispatcher, rows: Rows, channels: Channels, tag: Tag, extractor: usize) -> JobOpening
    ensures { result ≡ open_job_call d rows channels tag extractor }
{
    if !ready(d, channels) {
        return JobOpening {
            answer: Err(OpenError::BadTable),
            dispatcher: d,
            rows,
            channels,
        };
    }
    inner::open(d, rows, channels, tag, extractor)
}

// A job's channel revoked, its ids out of every row, and the task to wake.
pub fn close(d: Dispatcher, rows: Rows, channels: Channels, place: usize) -> JobClosing
    ensures { result ≡ close_job_call d rows channels place }
{
    if !ready(d, channels) {
        return JobClosing {
            answer: Err(CloseError::BadTable),
            dispatcher: d,
            rows,
            channels,
        };
    }
    inner::close(d, rows, channels, place)
}

// Sends by the id in a slot; the message is stamped with the row.
pub fn send(
    d: Dispatcher,
    rows: Rows,
    channels: Channels,
    row: usize,
    slot: usize,
    payload: Payload,
) -> SlotSending
    ensures { result ≡ slot_send_call d rows channels row slot payload }
{
    if !ready(d, channels) {
        return SlotSending {
            answer: Err(BySlotError::BadTable),
            dispatcher: d,
            rows,
            channels,
        };
    }
    inner::send(d, rows, channels, row, slot, payload)
}

// Tries to receive by the id in a slot.
pub fn receive(
    d: Dispatcher,
    rows: Rows,
    channels: Channels,
    row: usize,
    slot: usize,
) -> SlotReceiving
    ensures { result ≡ slot_recv_call d rows channels row slot }
{
    if !ready(d, channels) {
        return SlotReceiving {
            answer: Err(BySlotError::BadTable),
            dispatcher: d,
            rows,
            channels,
        };
    }
    inner::receive(d, rows, channels, row, slot)
}

// Parks by the id in a slot: the receiving that waits.
pub fn park(
    d: Dispatcher,
    rows: Rows,
    channels: Channels,
    row: usize,
    slot: usize,
    me: TaskId,
) -> SlotParking
    ensures { result ≡ slot_park_call d rows channels row slot me }
{
    if !ready(d, channels) {
        return SlotParking {
            answer: Err(BySlotError::BadTable),
            dispatcher: d,
            rows,
            channels,
        };
    }
    inner::park(d, rows, channels, row, slot, me)
}
