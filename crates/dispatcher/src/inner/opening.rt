// A job opened for a tag.
ghost use Rattle.std.specs.Prelude.{◌≡◌, ◌≤◌, ◌<◌, Err};
ghost use Rattle.ipc_rules.specs.Sound.{Sound};
ghost use Rattle.dispatcher_rules.specs.Open.{variant_of, open_refused, job_opened, gives_both, job_made, open_job_of};
ghost use Rattle.dispatcher_rules.specs.Border.{Ready};

use crate::inner::places::{free_place, with_job};
use cap::ROWS;
use capslots::Table as Rows;
use dispatcher_rules::answers::{JobOpening, OpenAnswer, OpenError, OpenedJob};
use dispatcher_rules::state::{Dispatcher, Job, Tag};
use ipc_rules::state::{Channel, Table as Channels};

fn find(d: Dispatcher, tag: Tag) -> Option<usize>
    requires { d.count ≤ 16 }
    ensures { result ≡ variant_of d tag }
{
    d.variants[..d.count].iter().position(|v| v.tag == tag)
}

// The send id to the lowest empty slot of the extractor's row, and then the receive id to the lowest empty slot, of those now left, of `row`.
// `made` has the new channel; where a slot is missing it is dropped, and `channels` given back.
fn hand_out(
    d: Dispatcher,
    rows: Rows,
    channels: Channels,
    made: Channels,
    place: usize,
    tag: Tag,
    ends: Channel,
    extractor: usize,
    row: usize,
) -> JobOpening
    requires { Sound made × (place < 16) }
    ensures { result ≡ gives_both made rows ends extractor row (open_refused (Err OpenError.BadSlot) d rows channels) (job_opened d place tag ends) }
{
    let Some(s) = capslots::empty_slot(rows, extractor) else {
        return JobOpening {
            answer: Err(OpenError::BadSlot),
            dispatcher: d,
            rows,
            channels,
        };
    };
    let first = joined::inner::give(made, rows, extractor, s, ends.send);
    let left = first.rows;
    let Some(q) = capslots::empty_slot(left, row) else {
        return JobOpening {
            answer: Err(OpenError::BadSlot),
            dispatcher: d,
            rows,
            channels,
        };
    };
    let held = first.channels;
    let second = joined::inner::give(held, left, row, q, ends.recv);
    let filled = second.rows;
    let after = second.channels;
    let send = ends.send;
    let recv = ends.recv;
    let opened = OpenedJob { place, send, recv };
    let job = Job {
        open: true,
        ends,
        tag,
    };
    let with = with_job(d, place, job);
    JobOpening {
        answer: Ok(opened),
        dispatcher: with,
        rows: filled,
        channels: after,
    }
}

// An ephemeral channel for the job, and its ids handed out. A creation that is refused leaves its table as it was.
fn make_job(
    d: Dispatcher,
    rows: Rows,
    channels: Channels,
    tag: Tag,
    extractor: usize,
    place: usize,
    row: usize,
) -> JobOpening
    requires { Sound channels × (place < 16) }
    ensures { result ≡ job_made d rows channels tag extractor place row }
{
    let created = ipc_life::inner::create(channels, true);
    let answer = created.answer;
    match answer {
        Ok(ends) => {
            let made = created.table;
            hand_out(d, rows, channels, made, place, tag, ends, extractor, row)
        }
        Err(refusal) => JobOpening {
            answer: Err(OpenError::from(refusal)),
            dispatcher: d,
            rows,
            channels,
        },
    }
}

// A job for the tag, all or nothing: a refusal gives back what was lent.
pub fn open(d: Dispatcher, rows: Rows, channels: Channels, tag: Tag, extractor: usize) -> JobOpening
    requires { Ready d channels }
    ensures { result ≡ open_job_of d rows channels tag extractor }
{
    let Some(v) = find(d, tag) else {
        return JobOpening {
            answer: Err(OpenError::NoVariant),
            dispatcher: d,
            rows,
            channels,
        };
    };
    if extractor >= ROWS {
        return JobOpening {
            answer: Err(OpenError::BadRow),
            dispatcher: d,
            rows,
            channels,
        };
    }
    let Some(place) = free_place(d) else {
        return JobOpening {
            answer: Err(OpenError::JobsFull),
            dispatcher: d,
            rows,
            channels,
        };
    };
    let variant = d.variants[v];
    make_job(d, rows, channels, tag, extractor, place, variant.row)
}
