// `bind`: the entry's packet pool and four wanted indices, then the held list.
use crate::{lending, op, wrap};
use edgescript::operands::{at, byte, refusals, rest};
use edgescript::print;
use manifest::{AgentEntry, Binding};

// From here up a slot wants nothing.
const NOTHING: u64 = 256;

fn want(w: &[u64], i: usize) -> Option<u8> {
    (at(w, i) < NOTHING).then_some(byte(w, i))
}

fn entry(w: &[u64]) -> AgentEntry {
    AgentEntry {
        slots: [want(w, 1), want(w, 2), want(w, 3), want(w, 4)],
        packet_pool: at(w, 0) == 1,
    }
}

// The answer's number, what a refusal shows, and the four places.
fn bound<P: Print>(to: &P, b: Binding) {
    print::answer(to, manifest::bind_shown(b.answer));
    print::slots(to, b.slots);
}

pub(crate) fn call<P: Print>(to: &P, op: u8, w: &[u64]) {
    match op {
        op::BIND => bound(to, manifest::bind(entry(w), rest(w, 5))),
        op::BIND_LENT => bound(to, lending::bind(entry(w), rest(w, 5))),
        op::NOTE_AUTHORITY_LENT => print::counts(to, lending::note_authority(refusals(w))),
        op::NOTE_STATE_LENT => print::counts(to, lending::note_state(refusals(w))),
        op::WRAP => wrap::edges(to),
        _ => {}
    }
}
