// The calls that only look.
ghost use Rattle.std.specs.Prelude.{◌≡◌};
ghost use Rattle.ipc_rules.specs.Sound.{Sound};
ghost use Rattle.ipc_rules.specs.Observe.{queued_of, holders_of};
ghost use Rattle.ipc_rules.specs.Why.{why_of};

use cap::{CapId, CapRights};
use ipc_parts::opening::{attempt, open, open_for, right_for};
use ipc_rules::answers::{CapError, HoldersAnswer, QueuedAnswer, WhyAnswer, WhyError};
use ipc_rules::opening::{Asked, Opening};
use ipc_rules::state::{MAX_ENDPOINTS, Table};

// How many messages wait. Either end may ask, and no count is raised.
pub fn queued(t: Table, cap: CapId) -> QueuedAnswer
    requires { Sound t }
    ensures { result ≡ queued_of t cap }
{
    let i = cap.index() as usize;
    let ep = t.endpoints[i % MAX_ENDPOINTS];
    let Opening::Opens(k) = open_for(i < t.sizes.endpoints, ep, cap, Asked::Either) else {
        return Err(CapError::BadCap);
    };
    let b = t.mailboxes[k];
    Ok(b.ring.len)
}

// How many holds on the send end are registered and not released.
pub fn send_holders(t: Table, cap: CapId) -> HoldersAnswer
    requires { Sound t }
    ensures { result ≡ holders_of t cap }
{
    let i = cap.index() as usize;
    let ep = t.endpoints[i % MAX_ENDPOINTS];
    let Opening::Opens(k) = open(i < t.sizes.endpoints, ep, cap, CapRights::SEND) else {
        return Err(CapError::BadCap);
    };
    let b = t.mailboxes[k];
    Ok(b.send_holders)
}

// For the supervisor: why an id opens nothing, if it does not. No count is raised.
pub fn why_shut(t: Table, cap: CapId, asked: Asked) -> WhyAnswer
    requires { Sound t }
    ensures { result ≡ why_of t cap asked }
{
    let i = cap.index() as usize;
    let ep = t.endpoints[i % MAX_ENDPOINTS];
    let Err(reason) = attempt(i < t.sizes.endpoints, ep, cap, right_for(asked, ep.rights)) else {
        return Ok(());
    };
    Err(WhyError::Shut(reason))
}
