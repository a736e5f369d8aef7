// A task that is no longer to be woken.
ghost use Rattle.std.specs.Prelude.{◌≡◌};
ghost use Rattle.ipc_rules.specs.Sound.{Sound};
ghost use Rattle.ipc_rules.specs.Waiters.{clear_of};

use ipc_parts::waiters::waits_on;
use ipc_rules::answers::ClearAnswer;
use ipc_rules::state::{NOBODY, Table, TaskId};
use shown::Answered;

// Takes `task` out of every mailbox that it waits on, and counts them.
pub fn clear_waiter(mut t: Table, task: TaskId) -> Answered<ClearAnswer, Table>
    requires { Sound t }
    ensures { result ≡ clear_of t task }
{
    let mut cleared = 0;
    for b in &mut t.mailboxes {
        if waits_on(*b, task) {
            b.waiter = NOBODY;
            cleared += 1;
        }
    }
    Answered {
        answer: Ok(cleared),
        table: t,
    }
}
