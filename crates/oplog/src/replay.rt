// A replay over lent buffers: each call goes on from a place of the log and fills a buffer with the next part of the text.
ghost use Rattle.std.specs.Prelude.{◌≡◌, ◌≤◌, length};
ghost use Rattle.line.specs.Put.{written, put_of};
ghost use Rattle.oplog.specs.Replay.{last_line, last_of, replay_of};
ghost use Rattle.oplog.specs.Text.{start_of};

use crate::{StepAnswer, StepError, inner};
use ipc_rules::state::Sizes;
use laws::refusals;
use line::Written;
use operations::Tables;
use shown::Answer;

// The longest log.
pub const MOST: usize = 65536;

// How far a replay has come: `done` records end at `offset`.
#[derive(Clone, Copy)]
pub struct Place {
    pub offset: usize,
    pub done: u64,
    pub tables: Tables,
}

// What a call came to: the buffer's first `at` bytes are the next part of the text. `Took` says that it is the last part, `NoRoom` that
// the next line has no room after it: go on at `place` with another buffer.
#[derive(Clone, Copy)]
pub struct Part {
    pub answer: StepAnswer,
    pub at: usize,
    pub place: Place,
}

// Before the first record: fresh tables of sizes 32, 64, 8.
pub fn start() -> Place
    ensures { result ≡ start_of }
{
    let sizes = Sizes {
        mailboxes: 32,
        endpoints: 64,
        depth: 8,
    };
    let made = operations::all_fresh(sizes);
    let tables = made.tables;
    Place {
        offset: 0,
        done: 0,
        tables,
    }
}

// `end` and the number of records where the fault's number is 0, else `bad`, at the start of the buffer's free tail.
fn write_last(free: &mut [u8], number: u8, offset: usize, done: u64) -> Written
    ensures answer { result ≡ put_of free.old 0 (last_line number offset done) }
    ensures buffer { free.new ≡ written free.old 0 (last_line number offset done) }
{
    if number == refusals::NONE {
        return line::write_end(free, done);
    }
    line::write_bad(free, offset as u64, number as u64)
}

// The last line, its writer lent the buffer's free tail, where it has room.
fn last(out: &mut [u8], at: usize, number: u8, offset: usize, place: Place) -> Part
    requires { at ≤ length out.old }
    ensures answer { result ≡ (last_of out.old at number offset place).part }
    ensures buffer { out.new ≡ (last_of out.old at number offset place).buffer }
{
    match write_last(&mut out[at..], number, offset, place.done) {
        Ok(n) => Part {
            answer: Ok(()),
            at: at + n,
            place,
        },
        Err(_) => Part {
            answer: Err(StepError::NoRoom),
            at,
            place,
        },
    }
}

// The next part of what the log's replay prints. 27 where the place does not fit the log: an offset past its end, more records than bytes
// before it, or an unsound channel table. 28 is no answer but the line that is printed of too long a log.
pub fn replay(log: &[u8], out: &mut [u8], from: Place) -> Part
    ensures answer { result ≡ (replay_of log.now out.old from).part }
    ensures buffer { out.new ≡ (replay_of log.now out.old from).buffer }
{
    let offset = from.offset;
    let done = from.done;
    let tables = from.tables;
    let channels = tables.channels;
    let sound = ipc_sound::sound(channels);
    if !((offset <= log.len()) & (done <= offset as u64) & sound) {
        return Part {
            answer: Err(StepError::BadTable),
            at: 0,
            place: from,
        };
    }
    if log.len() > MOST {
        return last(out, 0, refusals::TOO_LONG, MOST, from);
    }
    let ran = inner::run(&log[offset..], done, out, tables);
    let answer = ran.answer;
    let number = answer.number();
    let after = ran.tables;
    let reached = offset + ran.offset;
    let place = Place {
        offset: reached,
        done: ran.done,
        tables: after,
    };
    if number == refusals::NO_ROOM {
        return Part {
            answer: Err(StepError::NoRoom),
            at: ran.at,
            place,
        };
    }
    last(out, ran.at, number, reached, place)
}
