// Capability ids, their classes and rights, and the slots that hold them. Ported from cap.rs.
#![tactic(auto)]

ghost use Rattle.std.specs.Prelude.{◌≡◌};
ghost use Rattle.cap.specs.Id.{id_of, index_of, generation_of, class_of};
ghost use Rattle.cap.specs.Rights.{no_rights, contains_all, union_of};

mod slot;
mod word;

pub use slot::{ROWS, Slot, SlotAnswer, SlotError, from_slot};
pub use word::{
    WordAnswer, WordError, read_word, slot_at, slot_of, word_of, word_shown, words_read,
};

// An opaque id: a table index in the low 16 bits, the generation that it was made in above them.
// Anyone can build any id; what makes one worthless is the table that does not open it.
#[derive(Clone, Copy, PartialEq, Eq)]
pub struct CapId {
    pub raw: u32,
}

// Band bits of the index: neither is an endpoint, both are nothing.
pub const TASK_BAND: u16 = 16384;

pub const IRQ_BAND: u16 = 32768;

// What an id's index names, by its class bits.
#[derive(Clone, Copy, PartialEq, Eq)]
pub enum CapClass {
    Endpoint(u16),
    Task(u16),
    Irq(u16),
    Invalid,
}

impl CapId {
    pub fn new(index: u16, generation: u16) -> Self
        ensures { result ≡ id_of index generation }
    {
        CapId {
            raw: index as u32 + 65536 * (generation as u32),
        }
    }

    pub fn index(self) -> u16
        ensures { result ≡ index_of self }
    {
        (self.raw % 65536) as u16
    }

    pub fn generation(self) -> u16
        ensures { result ≡ generation_of self }
    {
        (self.raw / 65536) as u16
    }

    pub fn raw(self) -> u32
        ensures { result ≡ self.raw }
    {
        self.raw
    }

    pub fn from_raw(raw: u32) -> Self
        ensures { result.raw ≡ raw }
    {
        CapId { raw }
    }

    // The one decoder of the class bits.
    #[tactic(auto, unfolding(crate::specs::Id::class_of, laws::specs::Pick::pick))]
    pub fn classify(self) -> CapClass
        ensures { result ≡ class_of self }
    {
        let index = self.index();
        let payload = index % TASK_BAND;
        match (index / IRQ_BAND % 2 == 1, index / TASK_BAND % 2 == 1) {
            (false, false) => CapClass::Endpoint(payload),
            (false, true) => CapClass::Task(payload),
            (true, false) => CapClass::Irq(payload),
            (true, true) => CapClass::Invalid,
        }
    }
}

// Endpoint rights, as bit flags.
#[derive(Clone, Copy, PartialEq, Eq)]
pub struct CapRights {
    pub bits: u8,
}

impl CapRights {
    pub const SEND: CapRights = CapRights { bits: 1 };

    pub const RECV: CapRights = CapRights { bits: 2 };

    pub const IRQ: CapRights = CapRights { bits: 4 };

    pub fn empty() -> Self
        ensures { result ≡ no_rights }
    {
        CapRights { bits: 0 }
    }

    // Whether every right of `other` is here.
    pub fn contains(self, other: CapRights) -> bool
        ensures { result ≡ contains_all self other }
    {
        self.bits & other.bits == other.bits
    }

    pub fn union(self, other: CapRights) -> Self
        ensures { result ≡ union_of self other }
    {
        CapRights {
            bits: self.bits | other.bits,
        }
    }
}
