// The three refusal counts, lent and raised where they stand.
ghost use Rattle.std.specs.Prelude.{◌≡◌};
ghost use Rattle.ipc_rules.specs.Counts.{authority_noted, state_noted};

use ipc_parts::counts::raised;
use ipc_rules::state::Refusals;

// A refusal for want of authority that was found outside the table.
pub fn note_authority_refusal(r: &mut Refusals)
    ensures { r.new ≡ authority_noted r.old }
{
    r.authority = raised(r.authority);
}

// A refusal for a state that should not be, found outside the table.
pub fn note_state_refusal(r: &mut Refusals)
    ensures { r.new ≡ state_noted r.old }
{
    r.state = raised(r.state);
}
