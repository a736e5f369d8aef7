// A channel ended: both ends die and the mailbox is emptied, so that its places can be used again under another generation.
ghost use Rattle.std.specs.Prelude.{◌≡◌};
ghost use Rattle.ipc_rules.specs.Sound.{Sound};
ghost use Rattle.ipc_rules.specs.Revoke.{revoke_of};

use cap::CapId;
use ipc_parts::counts::raised;
use ipc_parts::endpoints::killed;
use ipc_parts::opening::open_for;
use ipc_rules::answers::{CapError, RevokeAnswer};
use ipc_rules::opening::{Asked, Opening};
use ipc_rules::state::{FRESH_MAILBOX, FRESH_MESSAGE, MAX_DEPTH, MAX_ENDPOINTS, Table};
use shown::Answered;

// Kills both ends of the channel that `cap` names, by either of them, and answers the waiter.
#[tactic(auto, using(ipc_rules::proofs::Openings::any_box, laws::proofs::Through::turns))]
pub fn revoke_channel(mut t: Table, cap: CapId) -> Answered<RevokeAnswer, Table>
    requires { Sound t }
    ensures { result ≡ revoke_of t cap }
{
    let i = cap.index() as usize;
    let ep = t.endpoints[i % MAX_ENDPOINTS];
    let Opening::Opens(k) = open_for(i < t.sizes.endpoints, ep, cap, Asked::Revocation) else {
        t.counters.refusals.authority = raised(t.counters.refusals.authority);
        return Answered {
            answer: Err(CapError::BadCap),
            table: t,
        };
    };
    let woken = t.mailboxes[k].waiter;
    for ep in &mut t.endpoints {
        *ep = killed(*ep, k);
    }
    let first = k * MAX_DEPTH;
    t.messages[first..first + MAX_DEPTH].fill(FRESH_MESSAGE);
    t.mailboxes[k] = FRESH_MAILBOX;
    Answered {
        answer: Ok(woken),
        table: t,
    }
}
