// The text that a job script comes to, over lent buffers: each call goes on from a place of the script and fills a buffer with the next part.
//
// `inner` has what is lent a desk that is known to be ready.
#![tactic(auto)]

ghost use Rattle.std.specs.Prelude.{◌≡◌, length};
ghost use Rattle.line.specs.Put.{written};
ghost use Rattle.jobtext.specs.Text.{start_place};
ghost use Rattle.jobtext.specs.Answer.{part_at, answer_of};

use dispatcher_rules::state::Desk;
use jobscript::{StepAnswer, StepError};
use laws::refusals;

pub mod inner;

// The longest script.
pub const MOST: usize = 65536;

// How far a script has been answered: `done` records end at `offset`.
#[derive(Clone, Copy)]
pub struct Place {
    pub offset: usize,
    pub done: u64,
    pub desk: Desk,
}

// What a call came to: the buffer's first `at` bytes are the next part of the text. `Took` says that it is the last part, `NoRoom` that the
// next line has no room after it: go on at `place` with another buffer.
#[derive(Clone, Copy)]
pub struct Part {
    pub answer: StepAnswer,
    pub at: usize,
    pub place: Place,
}

// Before the first record.
pub fn begin() -> Place
    ensures { result ≡ start_place }
{
    Place {
        offset: 0,
        done: 0,
        desk: jobscript::start(),
    }
}

// The next part of the text that the script comes to. 27 where the place does not fit the script: an offset past its end, more records than
// bytes before it, or a desk that is not ready. 28 is no answer but the line that is printed of too long a script.
pub fn answer(script: &[u8], out: &mut [u8], from: Place) -> Part
    ensures answer { result ≡ part_at 0 (answer_of script.now (length out.old) from) }
    ensures buffer { out.new ≡ written out.old 0 (answer_of script.now (length out.old) from).text }
{
    let offset = from.offset;
    let done = from.done;
    let desk = from.desk;
    let ready = dispatcher::ready(desk.dispatcher, desk.channels);
    if !((offset <= script.len()) & (done <= offset as u64) & ready) {
        return Part {
            answer: Err(StepError::BadTable),
            at: 0,
            place: from,
        };
    }
    if script.len() > MOST {
        return inner::last(out, 0, refusals::TOO_LONG, MOST, from);
    }
    inner::run(&script[offset..], out, from)
}
