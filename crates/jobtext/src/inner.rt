// The records of a script and their lines, into a lent buffer. The desk is known to be ready.
ghost use Rattle.std.specs.Prelude.{◌≡◌, ◌+◌, ◌≤◌, ◌<◌, ◌^◌, length};
ghost use Rattle.line.specs.Put.{written, put_of};
ghost use Rattle.jobscript.specs.Done.{ReadyDesk};
ghost use Rattle.jobtext.specs.Text.{said_of, last_line};
ghost use Rattle.jobtext.specs.Answer.{told_of, part_at, last_in, part_from};

use crate::{Part, Place};
use dispatcher_rules::state::Desk;
use jobscript::inner::step;
use jobscript::{StepAnswer, StepError};
use laws::refusals;
use line::Written;
use shown::Answer;

// `used` bytes of the script were read, and `at` is the buffer's first free place; a refused record leaves both, and the desk.
#[derive(Clone, Copy)]
pub struct Told {
    pub answer: StepAnswer,
    pub used: usize,
    pub at: usize,
    pub desk: Desk,
}

// One record, and its line from place `at` of the buffer on.
fn tell(script: &[u8], number: u64, out: &mut [u8], at: usize, desk: Desk) -> Told
    requires { ReadyDesk desk × (at ≤ length out.old) }
    ensures answer { result ≡ told_of (length out.old) at desk (said_of script.now number desk) }
    ensures buffer { out.new ≡ written out.old at (said_of script.now number desk).text }
{
    let s = step(script, desk);
    let answer = s.answer;
    if answer.number() != refusals::NONE {
        return Told {
            answer,
            used: 0,
            at,
            desk,
        };
    }
    let shown = s.shown;
    let after = s.desk;
    match line::write_line(&mut out[at..], number, s.op as u64, shown) {
        Ok(n) => Told {
            answer: Ok(()),
            used: s.used,
            at: at + n,
            desk: after,
        },
        Err(_) => Told {
            answer: Err(StepError::NoRoom),
            used: 0,
            at,
            desk,
        },
    }
}

// `end` and the number of records where the fault's number is 0, else `bad`, at the start of the buffer's free tail.
fn write_last(free: &mut [u8], number: u8, offset: usize, done: u64) -> Written
    ensures answer { result ≡ put_of free.old 0 (last_line number offset done) }
    ensures buffer { free.new ≡ written free.old 0 (last_line number offset done) }
{
    if number == refusals::NONE {
        return line::write_end(free, done);
    }
    line::write_bad(free, offset as u64, number as u64)
}

// The last line from place `at` of the buffer on, where it has room.
pub fn last(out: &mut [u8], at: usize, number: u8, offset: usize, place: Place) -> Part
    requires { at ≤ length out.old }
    ensures answer { result ≡ part_at at (last_in (length out.old) at number offset place) }
    ensures buffer { out.new ≡ written out.old at (last_in (length out.old) at number offset place).text }
{
    match write_last(&mut out[at..], number, offset, place.done) {
        Ok(n) => Part {
            answer: Ok(()),
            at: at + n,
            place,
        },
        Err(_) => Part {
            answer: Err(StepError::NoRoom),
            at,
            place,
        },
    }
}

// What is left of a script at a place, as far as the buffer has room for its lines.
pub fn run(script: &[u8], out: &mut [u8], from: Place) -> Part
    requires { ReadyDesk from.desk × (from.done + length script.now < 2 ^ 64) × (from.offset + length script.now < 2 ^ 64) }
    ensures answer { result ≡ part_at 0 (part_from (length script.now) (length out.old) 0 script.now from) }
    ensures buffer { out.new ≡ written out.old 0 (part_from (length script.now) (length out.old) 0 script.now from).text }
{
    let mut rest = script;
    let mut place = from;
    let mut at = 0;
    while 0 < rest.len() {
        let t = tell(rest, place.done + 1, out, at, place.desk);
        let answer = t.answer;
        let number = answer.number();
        if number == refusals::NO_ROOM {
            return Part { answer, at, place };
        }
        if number != refusals::NONE {
            return last(out, at, number, place.offset, place);
        }
        let used = t.used;
        let after = t.desk;
        rest = &rest[used..];
        at = t.at;
        place.offset = place.offset + used;
        place.done = place.done + 1;
        place.desk = after;
    }
    last(out, at, refusals::NONE, place.offset, place)
}
