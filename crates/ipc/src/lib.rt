// The channel table: which mailbox an id opens, what waits in it, and who is woken. Ported from ipc.rs.
//
// These are the calls that anyone may make, on any table and any operands: each tests the lent table first and refuses one that is not
// sound with 27. Crates that have shown their table to be sound call the functions of `ipc_life`,
// `ipc_queue` and `ipc_holds` and do not pay for the test again.
#![tactic(auto)]

ghost use Rattle.std.specs.Prelude.{◌≡◌, true, false};
ghost use Rattle.ipc_sound.specs.Border.{create_call, send_call, recv_call, park_call, queued_call, why_call, holders_call, register_call, release_call, revoke_call, clear_call, note_authority_call, note_state_call, refusals_call};

use cap::{CapId, Slot};
pub use ipc_life::making::new;
use ipc_rules::answers::{
    CapError, ClearAnswer, CreateAnswer, CreateError, HoldersAnswer, NoteAnswer, ParkAnswer,
    ParkError, QueuedAnswer, RecvAnswer, RecvError, RefusalsAnswer, RegisterAnswer, RegisterError,
    Releasing, RevokeAnswer, SendAnswer, SendError, TableError, WhyAnswer, WhyError,
};
use ipc_rules::opening::Asked;
use ipc_rules::state::{NOBODY, Payload, Table, TaskId};
use shown::Answered;

// A channel whose waiter is not cancelled when the last send hold goes.
pub fn create_channel(t: Table) -> Answered<CreateAnswer, Table>
    ensures { result ≡ create_call t false }
{
    if !ipc_sound::sound(t) {
        return Answered {
            answer: Err(CreateError::BadTable),
            table: t,
        };
    }
    ipc_life::inner::create(t, false)
}

// A channel whose waiter is.
pub fn create_channel_ephemeral(t: Table) -> Answered<CreateAnswer, Table>
    ensures { result ≡ create_call t true }
{
    if !ipc_sound::sound(t) {
        return Answered {
            answer: Err(CreateError::BadTable),
            table: t,
        };
    }
    ipc_life::inner::create(t, true)
}

// Queues what a sender hands in, stamped with its row, and answers the task to wake.
pub fn send(t: Table, cap: CapId, payload: Payload, row: usize) -> Answered<SendAnswer, Table>
    ensures { result ≡ send_call t cap payload row }
{
    if !ipc_sound::sound(t) {
        return Answered {
            answer: Err(SendError::BadTable),
            table: t,
        };
    }
    ipc_queue::inner::send(t, cap, payload, row)
}

// Takes the oldest message.
pub fn try_recv(t: Table, cap: CapId) -> Answered<RecvAnswer, Table>
    ensures { result ≡ recv_call t cap }
{
    if !ipc_sound::sound(t) {
        return Answered {
            answer: Err(RecvError::BadTable),
            table: t,
        };
    }
    ipc_queue::inner::try_recv(t, cap)
}

// Takes the oldest message, or waits for one.
pub fn park(t: Table, cap: CapId, me: TaskId) -> Answered<ParkAnswer, Table>
    ensures { result ≡ park_call t cap me }
{
    if !ipc_sound::sound(t) {
        return Answered {
            answer: Err(ParkError::BadTable),
            table: t,
        };
    }
    ipc_queue::inner::park(t, cap, me)
}

// How many messages wait; either end may ask.
pub fn queued(t: Table, cap: CapId) -> QueuedAnswer
    ensures { result ≡ queued_call t cap }
{
    if !ipc_sound::sound(t) {
        return Err(CapError::BadTable);
    }
    ipc_queue::inner::queued(t, cap)
}

// For the supervisor, not for tasks: why an id opens nothing, if it does not.
pub fn why_shut(t: Table, cap: CapId, asked: Asked) -> WhyAnswer
    ensures { result ≡ why_call t cap asked }
{
    if !ipc_sound::sound(t) {
        return Err(WhyError::BadTable);
    }
    ipc_queue::inner::why_shut(t, cap, asked)
}

// How many holds on the send end are registered and not released.
pub fn send_holders(t: Table, cap: CapId) -> HoldersAnswer
    ensures { result ≡ holders_call t cap }
{
    if !ipc_sound::sound(t) {
        return Err(CapError::BadTable);
    }
    ipc_queue::inner::send_holders(t, cap)
}

// A hold for each id of the list that opens for send.
pub fn register_holds(t: Table, list: &[u64]) -> Answered<RegisterAnswer, Table>
    ensures { result ≡ register_call t list.now }
{
    if !ipc_sound::sound(t) {
        return Answered {
            answer: Err(RegisterError::BadTable),
            table: t,
        };
    }
    ipc_holds::inner::register_holds(t, list)
}

// A hold less for each of four slots, and the waiters to cancel.
pub fn release_holds(t: Table, slots: [Slot; 4]) -> Releasing
    ensures { result ≡ release_call t slots }
{
    if !ipc_sound::sound(t) {
        return Releasing {
            answer: Err(TableError::BadTable),
            waiters: [NOBODY; 4],
            table: t,
        };
    }
    ipc_holds::inner::release_holds(t, slots)
}

// Ends a channel, by either end, and answers its waiter.
pub fn revoke_channel(t: Table, cap: CapId) -> Answered<RevokeAnswer, Table>
    ensures { result ≡ revoke_call t cap }
{
    if !ipc_sound::sound(t) {
        return Answered {
            answer: Err(CapError::BadTable),
            table: t,
        };
    }
    ipc_life::inner::revoke_channel(t, cap)
}

// Takes a task out of every mailbox that it waits on.
pub fn clear_waiter(t: Table, task: TaskId) -> Answered<ClearAnswer, Table>
    ensures { result ≡ clear_call t task }
{
    if !ipc_sound::sound(t) {
        return Answered {
            answer: Err(TableError::BadTable),
            table: t,
        };
    }
    ipc_life::inner::clear_waiter(t, task)
}

// Counts a refusal for want of authority that was found elsewhere.
pub fn note_authority_refusal(t: Table) -> Answered<NoteAnswer, Table>
    ensures { result ≡ note_authority_call t }
{
    if !ipc_sound::sound(t) {
        return Answered {
            answer: Err(TableError::BadTable),
            table: t,
        };
    }
    ipc_life::inner::note_authority_refusal(t)
}

// Counts a refusal for a state that should not be, found elsewhere.
pub fn note_state_refusal(t: Table) -> Answered<NoteAnswer, Table>
    ensures { result ≡ note_state_call t }
{
    if !ipc_sound::sound(t) {
        return Answered {
            answer: Err(TableError::BadTable),
            table: t,
        };
    }
    ipc_life::inner::note_state_refusal(t)
}

// The refusals so far, by reason.
pub fn refusals(t: Table) -> RefusalsAnswer
    ensures { result ≡ refusals_call t }
{
    if !ipc_sound::sound(t) {
        return Err(TableError::BadTable);
    }
    let counts = t.counters.refusals;
    Ok(counts)
}
