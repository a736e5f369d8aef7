// Why an id opened nothing, behind a BadCap.
ghost use Rattle.std.specs.Prelude.{◌≡◌};
ghost use Rattle.ipc_rules.specs.Sound.{Sound};
ghost use Rattle.ipc_rules.specs.Why.{why_of};
ghost use Rattle.operations.specs.Channels.{reasoned_in};

use cap::CapId;
use ipc_rules::opening::Asked;
use ipc_rules::state::Table;
use laws::refusals;
use shown::{Answer, Shown};

// What a line shows of a call with an id on this table: where that is BadCap, the reason besides.
pub fn with_reason(answer: Shown, t: Table, cap: CapId, asked: Asked) -> Shown
    requires { Sound t }
    ensures { result ≡ reasoned_in (why_of t cap asked) answer }
{
    if answer.number != refusals::BAD_CAP {
        return answer;
    }
    let why = ipc_queue::inner::why_shut(t, cap, asked);
    why.shown()
}
