// Operations 1 and 2: jobs opened and closed.
ghost use Rattle.std.specs.Prelude.{◌≡◌};
ghost use Rattle.jobscript.specs.Done.{packed, ReadyDesk};
ghost use Rattle.jobscript.specs.Operations.{open_done, close_done};

use crate::Outcome;
use crate::operands::{index_at, tag_at};
use dispatcher_rules::state::Desk;
use shown::Answer;

// 1.
pub fn op_open(mut desk: Desk, script: &[u8]) -> Outcome
    requires { ReadyDesk desk }
    ensures { result ≡ packed (open_done script.now desk) }
{
    let tag = tag_at(script, 3);
    let extractor = index_at(script, 8);
    let opened = dispatcher::inner::open(desk.dispatcher, desk.rows, desk.channels, tag, extractor);
    let answer = opened.answer;
    let dispatcher = opened.dispatcher;
    let rows = opened.rows;
    let channels = opened.channels;
    desk.dispatcher = dispatcher;
    desk.rows = rows;
    desk.channels = channels;
    Outcome {
        shown: answer.shown(),
        desk,
    }
}

// 2.
pub fn op_close(mut desk: Desk, script: &[u8]) -> Outcome
    requires { ReadyDesk desk }
    ensures { result ≡ packed (close_done script.now desk) }
{
    let place = index_at(script, 3);
    let closed = dispatcher::inner::close(desk.dispatcher, desk.rows, desk.channels, place);
    let answer = closed.answer;
    let dispatcher = closed.dispatcher;
    let rows = closed.rows;
    let channels = closed.channels;
    desk.dispatcher = dispatcher;
    desk.rows = rows;
    desk.channels = channels;
    Outcome {
        shown: answer.shown(),
        desk,
    }
}
