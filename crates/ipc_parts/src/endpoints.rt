// An endpoint as a revocation leaves it.
ghost use Rattle.std.specs.Prelude.{◌≡◌};
ghost use Rattle.ipc_rules.specs.Revoke.{killed};

use ipc_rules::state::Endpoint;

// An end of mailbox `k` dies, and keeps its generation: an id that named it goes on naming nothing.
#[tactic(auto, using(laws::proofs::Cases::cases), unfolding(ipc_rules::specs::Revoke::killed))]
pub fn killed(mut ep: Endpoint, k: usize) -> Endpoint
    ensures { result ≡ killed k ep }
{
    if ep.is_live() && ep.mailbox as usize == k {
        ep.live = false;
    }
    ep
}
