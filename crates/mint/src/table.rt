// A mint table of N entries, whose ids begin at a base. The IRQ table and the task table are such.
ghost use Rattle.std.specs.Prelude.{◌≡◌, ◌<◌, IfSome, not, length, position};
ghost use Rattle.cap.specs.Id.{class_of};
ghost use Rattle.mint.specs.Entries.{entry_of, lookup_in};
ghost use Rattle.mint.specs.Table.{fresh_of};

use crate::{Entry, LookupAnswer, LookupError, MintAnswer};
use cap::{CapClass, CapId};
use shown::Answered;

// Where the ids of each table begin: an id's index is the base + entry. The two share no bit, so no id is read by both tables.
pub const TASK_BASE: u16 = 16384;

pub const IRQ_BASE: u16 = 32768;

#[derive(Clone, Copy)]
pub struct Table<const N: usize> {
    pub entries: [Entry; N],
}

pub type Minted<const N: usize> = Answered<MintAnswer, Table<N>>;

// The entry that `cap` names in the table whose ids begin at `base`: nothing re-derives the class bits, `classify` reads them.
#[tactic(auto, using(laws::proofs::Cases::cases), unfolding(crate::specs::Entries::entry_of))]
fn named(base: u16, cap: CapId) -> Option<usize>
    ensures { result ≡ entry_of base (class_of cap) }
{
    match cap.classify() {
        CapClass::Task(i) => (base == TASK_BASE).then_some(i as usize),
        CapClass::Irq(i) => (base == IRQ_BASE).then_some(i as usize),
        CapClass::Endpoint(_) | CapClass::Invalid => None,
    }
}

// The lowest entry that is free.
pub(crate) fn free_entry(es: &[Entry]) -> Option<usize>
    ensures first { result ≡ position (λ e. not e.live) es.now }
    ensures below { IfSome result (λ i. i < length es.now) }
{
    es.iter().position(|e| !e.live)
}

impl<const N: usize> Table<N> {
    pub fn new() -> Self
        ensures { result ≡ fresh_of N }
    {
        Table {
            entries: [Entry::EMPTY; N],
        }
    }

    // The number that `cap` names.
    #[tactic(auto, unfolding(crate::specs::Entries::lookup_in, laws::specs::Search::found, laws::specs::Pick::pick))]
    pub fn lookup(self, base: u16, cap: CapId) -> LookupAnswer
        ensures { result ≡ lookup_in N base self.entry.entries cap }
    {
        let Some(i) = named(base, cap) else {
            return Err(LookupError::BadCap);
        };
        let Some(e) = self.entries.get(i) else {
            return Err(LookupError::BadCap);
        };
        crate::names(*e, cap.generation())
    }
}
