// A place closed.
ghost use Rattle.std.specs.Prelude.{◌≡◌};
ghost use Rattle.ipc_rules.specs.Sound.{Sound};
ghost use Rattle.dispatcher_rules.specs.Close.{woken_by, end_of, close_job_of};

use crate::inner::places::with_job;
use cap::CapId;
use capslots::Table as Rows;
use dispatcher_rules::answers::{CloseError, Ending, JobClosing};
use dispatcher_rules::state::{Dispatcher, MAX_JOBS, NO_JOB};
use ipc_rules::answers::RevokeAnswer;
use ipc_rules::state::{NOBODY, Table as Channels, Waiter};

fn woken(answer: RevokeAnswer) -> Waiter
    ensures { result ≡ woken_by answer }
{
    answer.unwrap_or(NOBODY)
}

// Revokes the channel of `send` where that opens for send. Asking for its holds raises no count.
fn end(channels: Channels, send: CapId) -> Ending
    requires { Sound channels }
    ensures { result ≡ end_of channels send }
{
    let Ok(_) = ipc_queue::inner::send_holders(channels, send) else {
        return Ending {
            waiter: NOBODY,
            channels,
        };
    };
    let revoked = ipc_life::inner::revoke_channel(channels, send);
    let answer = revoked.answer;
    let waiter = woken(answer);
    let after = revoked.table;
    Ending {
        waiter,
        channels: after,
    }
}

// Ends the job's channel, takes both ids out of every row and frees the place.
pub fn close(d: Dispatcher, rows: Rows, channels: Channels, place: usize) -> JobClosing
    requires { Sound channels }
    ensures { result ≡ close_job_of d rows channels place }
{
    if place >= MAX_JOBS {
        return JobClosing {
            answer: Err(CloseError::NoJob),
            dispatcher: d,
            rows,
            channels,
        };
    }
    let job = d.jobs[place];
    if !job.open {
        return JobClosing {
            answer: Err(CloseError::NoJob),
            dispatcher: d,
            rows,
            channels,
        };
    }
    let ended = end(channels, job.ends.send);
    let waiter = ended.waiter;
    let after = ended.channels;
    let emptied = capslots::forget(rows, job.ends.send, job.ends.recv);
    let without = with_job(d, place, NO_JOB);
    JobClosing {
        answer: Ok(waiter),
        dispatcher: without,
        rows: emptied,
        channels: after,
    }
}
