// Whether an id opens an endpoint, and where it does not, why: the one door to a mailbox.
ghost use Rattle.std.specs.Prelude.{◌≡◌};
ghost use Rattle.ipc_rules.specs.Why.{right_for};
ghost use Rattle.ipc_rules.specs.Opening.{attempt_of, told, open_of, open_for};

use cap::{CapId, CapRights};
use ipc_rules::opening::{Asked, Opening, Reason};
use ipc_rules::state::Endpoint;

// `below` says that the id's index is below the table's size; where it is not, the endpoint is not looked at. `right` says that the endpoint
// has what is asked for.
#[tactic(auto, using(laws::proofs::Cases::cases), unfolding(ipc_rules::specs::Opening::attempt_of))]
pub fn attempt(below: bool, ep: Endpoint, cap: CapId, right: bool) -> Result<usize, Reason>
    ensures { result ≡ attempt_of below ep cap right }
{
    if !below {
        return Err(Reason::PastEnd);
    }
    if !ep.is_live() {
        return Err(Reason::Dead);
    }
    if ep.generation != cap.generation() {
        return Err(Reason::OtherGeneration);
    }
    if !right {
        return Err(Reason::NoRight);
    }
    Ok(ep.mailbox as usize)
}

// Whether rights have what is asked for. No end has both rights, so asking for send and receive together would open nothing.
#[tactic(auto, unfolding(ipc_rules::specs::Why::right_for))]
pub fn right_for(asked: Asked, rights: CapRights) -> bool
    ensures { result ≡ right_for asked rights }
{
    match asked {
        Asked::Send => rights.contains(CapRights::SEND),
        Asked::Receive => rights.contains(CapRights::RECV),
        Asked::Either => rights.contains(CapRights::SEND) || rights.contains(CapRights::RECV),
        Asked::Revocation => true,
    }
}

// What is told of an attempt: not why it fails.
#[tactic(auto, unfolding(ipc_rules::specs::Opening::told))]
fn told(attempt: Result<usize, Reason>) -> Opening
    ensures { result ≡ told attempt }
{
    match attempt {
        Ok(k) => Opening::Opens(k),
        Err(_) => Opening::Shut,
    }
}

// What an id opens with the rights that are needed.
#[tactic(auto, unfolding(ipc_rules::specs::Opening::open_of))]
pub fn open(below: bool, ep: Endpoint, cap: CapId, need: CapRights) -> Opening
    ensures { result ≡ open_of below ep cap need }
{
    told(attempt(below, ep, cap, ep.rights.contains(need)))
}

// What an id opens for what is asked.
#[tactic(auto, using(ipc_rules::proofs::Openings::told_for))]
pub fn open_for(below: bool, ep: Endpoint, cap: CapId, asked: Asked) -> Opening
    ensures { result ≡ open_for asked below ep cap }
{
    told(attempt(below, ep, cap, right_for(asked, ep.rights)))
}
