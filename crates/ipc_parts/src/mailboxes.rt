// A mailbox as creation makes it, and its holds.
ghost use Rattle.std.specs.Prelude.{◌≡◌};
ghost use Rattle.ipc_rules.specs.State.{new_mailbox};
ghost use Rattle.ipc_rules.specs.Holds.{more, fewer, reaps};

use crate::counts::raised;
use ipc_rules::state::{FRESH_MAILBOX, Mailbox};

pub fn new_mailbox(ephemeral: bool) -> Mailbox
    ensures { result ≡ new_mailbox ephemeral }
{
    let mut b = FRESH_MAILBOX;
    b.live = true;
    b.ephemeral = ephemeral;
    b
}

pub fn more(mut b: Mailbox) -> Mailbox
    ensures { result ≡ more b }
{
    b.send_holders = raised(b.send_holders);
    b
}

pub fn fewer(mut b: Mailbox) -> Mailbox
    ensures { result ≡ fewer b }
{
    b.send_holders = b.send_holders.saturating_sub(1);
    b
}

// Whether the waiter is to be taken out: the last hold of an ephemeral mailbox has gone.
pub fn reaps(b: Mailbox) -> bool
    ensures { result ≡ reaps b }
{
    b.send_holders == 0 && b.ephemeral && b.waiter.present
}
