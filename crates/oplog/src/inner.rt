// The step and the run on tables whose channel table is known to be sound.
ghost use Rattle.std.specs.Prelude.{◌≡◌, ◌+◌, ◌<◌, ◌^◌, length};
ghost use Rattle.ipc_rules.specs.Sound.{Sound};
ghost use Rattle.oplog.specs.Run.{run_of};
ghost use Rattle.oplog.specs.Step.{step_of, step_out};

use crate::{Ran, StepError, Stepped};
use logread::Record;
use operations::Tables;
use shown::Answer;

// One record of the log, and its line from place `at` of the lent buffer on: the line's writer is lent the tail that is free. A place past the
// buffer's end has no room.
pub fn step(log: &[u8], number: u64, out: &mut [u8], at: usize, t: Tables) -> Stepped
    requires { Sound t.channels }
    ensures answer { result ≡ step_of log.now number out.old at t }
    ensures buffer { out.new ≡ step_out log.now number out.old at t }
{
    match logread::read_record(log) {
        Err(fault) => Stepped {
            answer: Err(StepError::from(fault)),
            used: 0,
            at,
            tables: t,
        },
        Ok(Record { op, len }) => {
            let done = operations::inner::apply(op, t, log);
            let shown = done.shown;
            let after = done.tables;
            if out.len() < at {
                return Stepped {
                    answer: Err(StepError::NoRoom),
                    used: 0,
                    at,
                    tables: t,
                };
            }
            match line::write_line(&mut out[at..], number, op as u64, shown) {
                Ok(n) => Stepped {
                    answer: Ok(()),
                    used: len,
                    at: at + n,
                    tables: after,
                },
                Err(_) => Stepped {
                    answer: Err(StepError::NoRoom),
                    used: 0,
                    at,
                    tables: t,
                },
            }
        }
    }
}

// The records of a log, into a buffer from its start on, `before` others having been taken. Where the buffer has no room left for the next
// line, the run can be taken up at that record with an empty one.
pub fn run(log: &[u8], before: u64, out: &mut [u8], tables: Tables) -> Ran
    requires { Sound tables.channels × (before + length log.now < 2 ^ 64) }
    ensures answer { result ≡ (run_of log.now before out.old tables).answer }
    ensures buffer { out.new ≡ (run_of log.now before out.old tables).buffer }
{
    let mut rest = log;
    let mut t = tables;
    let mut at = 0;
    let mut done = before;
    while 0 < rest.len() {
        let s = step(rest, done + 1, out, at, t);
        let answer = s.answer;
        if answer.number() != 0 {
            return Ran {
                answer,
                offset: log.len() - rest.len(),
                done,
                at,
                tables: t,
            };
        }
        let used = s.used;
        let after = s.tables;
        rest = &rest[used..];
        at = s.at;
        t = after;
        done += 1;
    }
    Ran {
        answer: Ok(()),
        offset: log.len(),
        done,
        at,
        tables: t,
    }
}
