// A count, of refusals or of holds.
ghost use Rattle.std.specs.Prelude.{◌≡◌};
ghost use Rattle.ipc_rules.specs.Counts.{raised};

// One more; a count stops at its greatest value.
#[tactic(auto, using(laws::proofs::Cases::cases), unfolding(ipc_rules::specs::Counts::raised))]
pub fn raised(n: u32) -> u32
    ensures { result ≡ raised n }
{
    n.saturating_add(1)
}
