// An entry's slots bound to the held list. Of manifest.rs only `bind`, with an entry's slots and packet pool.
#![tactic(auto)]

ghost use Rattle.std.specs.Prelude.{◌≡◌, ◌<◌};
ghost use Rattle.cap.specs.Word.{slots_of};
ghost use Rattle.shown.specs.Shown.{shown};
ghost use Rattle.manifest.specs.Bind.{bind_error_number, bind_error_values, bind_number, bind_values, refused_by, choice_from, choice_of, choices_of, taken, in_order, bind_of};

use cap::Slot;
use laws::refusals;
use shown::{Answer, Shown};
use std::array;

pub const MAX_SLOTS: usize = 4;

// Held indices from here up are the packet pool's, and need that grant.
pub const PACKET_CAPABILITY_START: u8 = 3;

// An entry's slots are optional indices into the held list. They are no ids, so that an entry can reach nothing outside that list.
#[derive(Clone, Copy)]
pub struct AgentEntry {
    pub slots: [Option<u8>; MAX_SLOTS],
    pub packet_pool: bool,
}

// An index past the list asks for too much; a vacant place in it was promised and nobody filled it. So they are two refusals.
#[derive(Clone, Copy, PartialEq, Eq)]
pub enum BindError {
    NoSuchCapability { slot: usize, index: u8, held: usize },
    PacketPoolRequired { slot: usize, index: u8 },
    HeldVacant { slot: usize, index: u8 },
    BadWord,
}

pub type BindAnswer = Result<(), BindError>;

impl Answer for BindError {
    ghost number_of = { bind_error_number };

    ghost values_of = { bind_error_values };

    fn shown(self) -> Shown {
        match self {
            BindError::NoSuchCapability { slot, index, held } => Shown::new(
                refusals::NO_SUCH_CAPABILITY,
                &[slot as u64, index as u64, held as u64],
            ),
            BindError::PacketPoolRequired { slot, index } => Shown::new(
                refusals::PACKET_POOL_REQUIRED,
                &[slot as u64, index as u64],
            ),
            BindError::HeldVacant { slot, index } => {
                Shown::new(refusals::HELD_VACANT, &[slot as u64, index as u64])
            }
            BindError::BadWord => Shown::new(refusals::BAD_WORD, &[]),
        }
    }
}

// What a line shows of a binding's answer.
pub fn bind_shown(answer: BindAnswer) -> Shown
    ensures { result ≡ shown (bind_number answer) (bind_values answer) }
{
    answer.shown()
}

// The four places that the entry's slots take from the held list: all vacant where it is refused.
#[derive(Clone, Copy)]
pub struct Binding {
    pub answer: BindAnswer,
    pub slots: [Slot; MAX_SLOTS],
}

fn refused(refusal: BindError) -> Binding
    ensures { result ≡ refused_by refusal }
{
    Binding {
        answer: Err(refusal),
        slots: [Slot::VACANT; MAX_SLOTS],
    }
}

// What entry slot `slot` takes: `found` is the place of the held list at the index that it wants, and `held` the list's length.
#[tactic(auto, unfolding(crate::specs::Bind::choice_from, laws::specs::Pick::pick))]
pub fn choose(
    want: Option<u8>,
    found: Slot,
    held: usize,
    pool: bool,
    slot: usize,
) -> Result<Slot, BindError>
    ensures { result ≡ choice_from want found held pool slot }
{
    let Some(index) = want else {
        return Ok(Slot::VACANT);
    };
    if index as usize >= held {
        return Err(BindError::NoSuchCapability { slot, index, held });
    }
    if index >= PACKET_CAPABILITY_START && !pool {
        return Err(BindError::PacketPoolRequired { slot, index });
    }
    if !found.present {
        return Err(BindError::HeldVacant { slot, index });
    }
    Ok(found)
}

// The places that the choices take, or the first refusal among them.
fn taken(choices: [Result<Slot, BindError>; MAX_SLOTS]) -> Result<[Slot; MAX_SLOTS], BindError>
    ensures { result ≡ taken choices }
{
    let [a, b, c, d] = choices;
    Ok([a?, b?, c?, d?])
}

// The entry's choices upward, stopping at the first refusal.
#[tactic(auto, unfolding(crate::specs::Bind::bound))]
pub fn in_order(choices: [Result<Slot, BindError>; MAX_SLOTS]) -> Binding
    ensures { result ≡ in_order choices }
{
    match taken(choices) {
        Ok(slots) => Binding {
            answer: Ok(()),
            slots,
        },
        Err(refusal) => refused(refusal),
    }
}

fn choose_word(entry: AgentEntry, held: &[u64], slot: usize) -> Result<Slot, BindError>
    requires { slot < 4 }
    ensures { result ≡ choice_of entry (slots_of held.now) slot }
{
    let want = entry.slots[slot];
    let found = want.map_or(Slot::VACANT, |index| cap::slot_at(held, index as usize));
    choose(want, found, held.len(), entry.packet_pool, slot)
}

fn choices(entry: AgentEntry, held: &[u64]) -> [Result<Slot, BindError>; MAX_SLOTS]
    ensures { result ≡ choices_of entry (slots_of held.now) }
{
    array::from_fn(|slot| choose_word(entry, held, slot))
}

// An index turned into an id by indexing: what is bound was held.
#[tactic(auto, unfolding(crate::specs::Bind::bind_of, crate::specs::Bind::bind_slots, laws::specs::Pick::pick))]
pub fn bind(entry: AgentEntry, held: &[u64]) -> Binding
    ensures { result ≡ bind_of entry held.now }
{
    if !cap::words_read(held) {
        return refused(BindError::BadWord);
    }
    in_order(choices(entry, held))
}
