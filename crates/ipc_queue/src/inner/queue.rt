// Messages in and out of a mailbox: send, try to receive, park.
ghost use Rattle.std.specs.Prelude.{◌≡◌};
ghost use Rattle.ipc_rules.specs.Sound.{Sound};
ghost use Rattle.ipc_rules.specs.Send.{send_of};
ghost use Rattle.ipc_rules.specs.Receive.{recv_of, park_of};

use cap::{CapId, CapRights, ROWS};
use ipc_parts::counts::raised;
use ipc_parts::inner::{drained, filled, stamped};
use ipc_parts::opening::open;
use ipc_parts::waiters::other_waits;
use ipc_rules::answers::{ParkAnswer, ParkError, RecvAnswer, RecvError, SendAnswer, SendError};
use ipc_rules::opening::Opening;
use ipc_rules::state::{MAX_DEPTH, MAX_ENDPOINTS, Payload, Table, TaskId, Waiter};
use shown::Answered;

// Queues what the sender handed in, stamped with the row that the caller names, and answers the task to wake, if one was parked.
pub fn send(mut t: Table, cap: CapId, payload: Payload, row: usize) -> Answered<SendAnswer, Table>
    requires { Sound t }
    ensures { result ≡ send_of t cap payload row }
{
    if row >= ROWS {
        return Answered {
            answer: Err(SendError::BadRow),
            table: t,
        };
    }
    let i = cap.index() as usize;
    let ep = t.endpoints[i % MAX_ENDPOINTS];
    let Opening::Opens(k) = open(i < t.sizes.endpoints, ep, cap, CapRights::SEND) else {
        t.counters.refusals.authority = raised(t.counters.refusals.authority);
        return Answered {
            answer: Err(SendError::BadCap),
            table: t,
        };
    };
    let b = t.mailboxes[k];
    if b.ring.len == t.sizes.depth {
        t.counters.refusals.full = raised(t.counters.refusals.full);
        return Answered {
            answer: Err(SendError::Full),
            table: t,
        };
    }
    let at = k * MAX_DEPTH + b.ring.head;
    t.messages[at] = stamped(payload, row);
    t.mailboxes[k] = filled(b, t.sizes.depth);
    let woken = b.waiter;
    Answered {
        answer: Ok(woken),
        table: t,
    }
}

// Takes the oldest message, if there is one. Never parks.
pub fn try_recv(mut t: Table, cap: CapId) -> Answered<RecvAnswer, Table>
    requires { Sound t }
    ensures { result ≡ recv_of t cap }
{
    let i = cap.index() as usize;
    let ep = t.endpoints[i % MAX_ENDPOINTS];
    let Opening::Opens(k) = open(i < t.sizes.endpoints, ep, cap, CapRights::RECV) else {
        t.counters.refusals.authority = raised(t.counters.refusals.authority);
        return Answered {
            answer: Err(RecvError::BadCap),
            table: t,
        };
    };
    let b = t.mailboxes[k];
    if b.ring.len == 0 {
        return Answered {
            answer: Err(RecvError::Empty),
            table: t,
        };
    }
    let msg = t.messages[k * MAX_DEPTH + b.ring.tail];
    t.mailboxes[k] = drained(b, t.sizes.depth);
    Answered {
        answer: Ok(msg),
        table: t,
    }
}

// Gives a message that is queued, or claims the waiter's place for `me`. A second task is refused: overwritten, the first would never
// be woken.
pub fn park(mut t: Table, cap: CapId, me: TaskId) -> Answered<ParkAnswer, Table>
    requires { Sound t }
    ensures { result ≡ park_of t cap me }
{
    let i = cap.index() as usize;
    let ep = t.endpoints[i % MAX_ENDPOINTS];
    let Opening::Opens(k) = open(i < t.sizes.endpoints, ep, cap, CapRights::RECV) else {
        t.counters.refusals.authority = raised(t.counters.refusals.authority);
        return Answered {
            answer: Err(ParkError::BadCap),
            table: t,
        };
    };
    let mut b = t.mailboxes[k];
    if 0 < b.ring.len {
        let msg = t.messages[k * MAX_DEPTH + b.ring.tail];
        t.mailboxes[k] = drained(b, t.sizes.depth);
        return Answered {
            answer: Ok(Some(msg)),
            table: t,
        };
    }
    if b.ephemeral & (b.send_holders == 0) {
        return Answered {
            answer: Err(ParkError::Cancelled),
            table: t,
        };
    }
    if other_waits(b.waiter, me) {
        t.counters.refusals.state = raised(t.counters.refusals.state);
        return Answered {
            answer: Err(ParkError::Busy),
            table: t,
        };
    }
    let waiting = Waiter {
        present: true,
        task: me,
    };
    b.waiter = waiting;
    t.mailboxes[k] = b;
    Answered {
        answer: Ok(None),
        table: t,
    }
}
