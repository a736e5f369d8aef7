// An entry's slots bound to a held list that is lent as slot records.
ghost use Rattle.std.specs.Prelude.{◌≡◌};
ghost use Rattle.manifest.specs.Bind.{bind_slots};
ghost use Rattle.lent.specs.Binding.{index_of, wanted_of, taken, gathered, choices_at};

use cap::Slot;
use manifest::{AgentEntry, BindError, Binding, MAX_SLOTS};
use std::array;

// The index that an entry's slot asks for. One that wants nothing asks for 0, and what it finds is not looked at.
fn index(want: Option<u8>) -> u8
    ensures { result ≡ index_of want }
{
    want.unwrap_or(0)
}

fn wanted(entry: AgentEntry) -> [u8; MAX_SLOTS]
    ensures { result ≡ wanted_of entry }
{
    array::from_fn(|k| index(entry.slots[k]))
}

// The record at the wanted index, once the walk is there.
#[tactic(auto, unfolding(laws::specs::Pick::pick))]
fn taken(index: u8, found: Slot, at: usize, slot: Slot) -> Slot
    ensures { result ≡ taken index found at slot }
{
    if index as usize == at { slot } else { found }
}

// What each of the entry's slots has found once the walk has come to the record at `at`.
fn gathered(
    wanted: [u8; MAX_SLOTS],
    found: [Slot; MAX_SLOTS],
    at: usize,
    slot: Slot,
) -> [Slot; MAX_SLOTS]
    ensures { result ≡ gathered wanted found at slot }
{
    [
        taken(wanted[0], found[0], at, slot),
        taken(wanted[1], found[1], at, slot),
        taken(wanted[2], found[2], at, slot),
        taken(wanted[3], found[3], at, slot),
    ]
}

fn choices(
    entry: AgentEntry,
    found: [Slot; MAX_SLOTS],
    held: usize,
) -> [Result<Slot, BindError>; MAX_SLOTS]
    ensures { result ≡ choices_at entry found held }
{
    array::from_fn(|k| manifest::choose(entry.slots[k], found[k], held, entry.packet_pool, k))
}

// What each of the entry's slots takes from the list, as `manifest::bind` says it of words; every record reads, so there is no 21.
pub fn bind(entry: AgentEntry, held: &[Slot]) -> Binding
    ensures { result ≡ bind_slots entry held.now }
{
    let wanted = wanted(entry);
    let mut found = [Slot::VACANT; MAX_SLOTS];
    for (at, slot) in held.iter().enumerate() {
        let more = gathered(wanted, found, at, *slot);
        found = more;
    }
    manifest::in_order(choices(entry, found, held.len()))
}
