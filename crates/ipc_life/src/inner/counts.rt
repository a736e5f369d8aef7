// Refusals that were found outside the table, counted in it.
ghost use Rattle.std.specs.Prelude.{◌≡◌};
ghost use Rattle.ipc_rules.specs.Sound.{Sound};
ghost use Rattle.ipc_rules.specs.Counts.{note_authority_of, note_state_of};

use ipc_parts::counts::raised;
use ipc_rules::answers::NoteAnswer;
use ipc_rules::state::Table;
use shown::Answered;

// A refusal for want of authority that the table could not see: whoever knows the caller reports it here.
pub fn note_authority_refusal(mut t: Table) -> Answered<NoteAnswer, Table>
    requires { Sound t }
    ensures { result ≡ note_authority_of t }
{
    t.counters.refusals.authority = raised(t.counters.refusals.authority);
    Answered {
        answer: Ok(()),
        table: t,
    }
}

// A refusal that means bookkeeping asked for something impossible, found outside the table.
pub fn note_state_refusal(mut t: Table) -> Answered<NoteAnswer, Table>
    requires { Sound t }
    ensures { result ≡ note_state_of t }
{
    t.counters.refusals.state = raised(t.counters.refusals.state);
    Answered {
        answer: Ok(()),
        table: t,
    }
}
