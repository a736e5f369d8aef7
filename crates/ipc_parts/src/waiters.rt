// Who waits on a mailbox. A vacant place's task is never read.
ghost use Rattle.std.specs.Prelude.{◌≡◌};
ghost use Rattle.ipc_rules.specs.Receive.{other_waits};
ghost use Rattle.ipc_rules.specs.Waiters.{waits_on};

use ipc_rules::state::{Mailbox, TaskId, Waiter};

// Whether `task` waits on the mailbox.
pub fn waits_on(b: Mailbox, task: TaskId) -> bool
    ensures { result ≡ waits_on b task }
{
    b.waiter.present && b.waiter.task == task
}

// Whether another task than `me` waits in the place `w`.
pub fn other_waits(w: Waiter, me: TaskId) -> bool
    ensures { result ≡ other_waits w me }
{
    w.present && w.task != me
}
