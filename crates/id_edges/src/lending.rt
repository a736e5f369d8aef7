// The calls over references. Each record is lent by one function here, so that all the others have records by value.
ghost use Rattle.std.specs.Prelude.{◌≡◌, ◌≤◌, take};
ghost use Rattle.manifest.specs.Bind.{bind_slots};
ghost use Rattle.ipc_rules.specs.Counts.{authority_noted, state_noted};
ghost use Rattle.lent.specs.Holds.{register_slots};

use crate::op;
use cap::{CapId, Slot};
use edgecalls::channels;
use edgescript::operands::at;
use edgescript::print;
use ipc_rules::answers::RegisterAnswer;
use ipc_rules::state::{Refusals, Table};
use manifest::{AgentEntry, Binding};
use shown::{Answer, Answered};
use std::array;

const PRESENT: u64 = 4294967296;

// The most records that a line has.
const MOST: usize = 6;

// A number as a record: its id is the low 32 bits, and it is present from 4,294,967,296 up. So a vacant record can hold an id.
fn record(w: &[u64], i: usize) -> Slot {
    let word = at(w, i);
    Slot {
        present: word >= PRESENT,
        id: CapId {
            raw: (word % PRESENT) as u32,
        },
    }
}

fn records(w: &[u64]) -> [Slot; MOST] {
    array::from_fn(|i| record(w, i))
}

fn at_most(n: usize) -> usize
    ensures { result ≤ 6 }
{
    n.min(MOST)
}

fn register_first(t: Table, slots: [Slot; MOST], n: usize) -> Answered<RegisterAnswer, Table>
    requires { n ≤ 6 }
    ensures { result ≡ register_slots t (take n slots) }
{
    lent::register_holds(t, &slots[..n])
}

fn bind_first(entry: AgentEntry, slots: [Slot; MOST], n: usize) -> Binding
    requires { n ≤ 6 }
    ensures { result ≡ bind_slots entry (take n slots) }
{
    lent::bind(entry, &slots[..n])
}

pub(crate) fn note_authority(mut r: Refusals) -> Refusals
    ensures { result ≡ authority_noted r }
{
    lent::note_authority_refusal(&mut r);
    r
}

pub(crate) fn note_state(mut r: Refusals) -> Refusals
    ensures { result ≡ state_noted r }
{
    lent::note_state_refusal(&mut r);
    r
}

fn register<P: Print>(to: &P, t: Table, w: &[u64]) -> Table {
    let x = register_first(t, records(w), at_most(w.len()));
    print::answer(to, x.answer.shown());
    x.table
}

pub(crate) fn bind(entry: AgentEntry, w: &[u64]) -> Binding {
    bind_first(entry, records(w), at_most(w.len()))
}

// A call on the channel table, over references or not.
pub(crate) fn call<P: Print>(to: &P, op: u8, t: Table, w: &[u64]) -> Table {
    match op {
        op::REGISTER_LENT => register(to, t, w),
        _ => channels::call(to, op, t, w),
    }
}
