// The held words as slot records, and bind over them.
ghost use Rattle.std.specs.Prelude.{◌≡◌, ◌≤◌, take};
ghost use Rattle.manifest.specs.Bind.{bind_slots};

use crate::case::MOST_HELD;
use cap::Slot;
use manifest::{AgentEntry, Binding};
use std::array;

// What the words stand for, vacant past their end.
pub(crate) fn records(held: &[u64]) -> [Slot; MOST_HELD] {
    array::from_fn(|i| cap::slot_at(held, i))
}

pub(crate) fn bind(entry: AgentEntry, slots: [Slot; MOST_HELD], n: usize) -> Binding
    requires { n ≤ 255 }
    ensures { result ≡ bind_slots entry (take n slots) }
{
    lent::bind(entry, &slots[..n])
}
