// The places for jobs.
ghost use Rattle.std.specs.Prelude.{◌≡◌, ◌<◌};
ghost use Rattle.dispatcher_rules.specs.State.{with_job};
ghost use Rattle.dispatcher_rules.specs.Open.{free_place};

use dispatcher_rules::state::{Dispatcher, Job};

// The lowest place that is not open.
pub fn free_place(d: Dispatcher) -> Option<usize>
    ensures { result ≡ free_place d }
{
    d.jobs.iter().position(|job| !job.open)
}

pub fn with_job(mut d: Dispatcher, place: usize, job: Job) -> Dispatcher
    requires { place < 16 }
    ensures { result ≡ with_job d place job }
{
    d.jobs[place] = job;
    d
}
