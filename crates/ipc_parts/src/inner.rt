// Steps of a mailbox that is known to have room, or a message; an end of one that is known to be there; and a message stamped with a row below 54.
ghost use Rattle.std.specs.Prelude.{◌≡◌, ◌<◌};
ghost use Rattle.ipc_rules.specs.State.{new_endpoint, stamped};
ghost use Rattle.ipc_rules.specs.Send.{filled};
ghost use Rattle.ipc_rules.specs.Receive.{drained};

use cap::CapRights;
use ipc_rules::state::{Endpoint, Mailbox, Message, NOBODY, Payload};

// What a sender handed in, stamped with the sending row.
pub fn stamped(payload: Payload, row: usize) -> Message
    requires { row < 54 }
    ensures { result ≡ stamped payload row }
{
    Message {
        tag: payload.tag,
        row: row as u8,
        a: payload.a,
        b: payload.b,
    }
}

// One message more in a ring of depth `d`; the waiter is taken out.
pub fn filled(mut b: Mailbox, d: usize) -> Mailbox
    requires { (b.ring.head < d) × (b.ring.len < d) }
    ensures { result ≡ filled d b }
{
    b.ring = ring::inner::put_in(b.ring, d);
    b.waiter = NOBODY;
    b
}

// A ring of depth `d` without its oldest message.
pub fn drained(mut b: Mailbox, d: usize) -> Mailbox
    requires { (b.ring.tail < d) × (0 < b.ring.len) }
    ensures { result ≡ drained d b }
{
    b.ring = ring::inner::take_out(b.ring, d);
    b
}

// A live end of mailbox `k`.
pub fn new_endpoint(generation: u16, right: CapRights, k: usize) -> Endpoint
    requires { k < 32 }
    ensures { result ≡ new_endpoint generation right k }
{
    Endpoint {
        live: true,
        generation,
        rights: right,
        mailbox: k as u8,
    }
}
