// Operands that can be ill formed: flags, and the list of four, each a presence byte and an id.
ghost use Rattle.std.specs.Prelude.{◌≡◌, ◌<◌, length};
ghost use Rattle.logread.specs.Lists.{flag_ok, entry_ok, list_ok, list_slot, list_slots, list_words};

use crate::little::{byte_at, u32_at};
use cap::{CapId, Slot};
use std::array;

// How many bytes an entry of a list has.
const ENTRY: usize = 5;

pub fn flag_ok(byte: u8) -> bool
    ensures { result ≡ flag_ok byte }
{
    byte <= 1
}

#[tactic(auto, unfolding(crate::specs::Lists::entry_ok))]
fn entry_ok(log: &[u8], at: usize, i: usize) -> bool
    requires at_in_bounds { at < length log.now }
    requires i_bound { i < 4 }
    ensures { result ≡ entry_ok log.now at i }
{
    let place = at + ENTRY * i;
    match byte_at(log, place) {
        0 => u32_at(log, place + 1) == 0,
        presence => flag_ok(presence),
    }
}

// Whether the four entries from `at` on are well formed. Past the log's end all bytes read as 0: four vacant entries.
pub fn list_ok(log: &[u8], at: usize) -> bool
    ensures { result ≡ list_ok log.now at }
{
    if at >= log.len() {
        return true;
    }
    (0..4).all(|i| entry_ok(log, at, i))
}

// Entry `i` of the list from `at` on. There is nothing past the fourth.
#[tactic(auto, using(crate::proofs::Past::slot_past), unfolding(crate::specs::Lists::list_slot, laws::specs::Pick::pick))]
pub fn list_slot(log: &[u8], at: usize, i: usize) -> Slot
    ensures { result ≡ list_slot log.now at i }
{
    if i >= 4 || at >= log.len() {
        return Slot::VACANT;
    }
    let place = at + ENTRY * i;
    if byte_at(log, place) == 0 {
        return Slot::VACANT;
    }
    Slot::holding(CapId::from_raw(u32_at(log, place + 1)))
}

pub fn list_slots(log: &[u8], at: usize) -> [Slot; 4]
    ensures { result ≡ list_slots log.now at }
{
    array::from_fn(|i| list_slot(log, at, i))
}

// The closure is there since a function of another crate has no contract by its name alone.
pub fn list_words(log: &[u8], at: usize) -> [u64; 4]
    ensures { result ≡ list_words log.now at }
{
    list_slots(log, at).map(|slot| cap::word_of(slot))
}
