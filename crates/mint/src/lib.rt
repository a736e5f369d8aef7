// What the two mint tables are: a table of entries, an entry and its generations, and the answers. Ported from irqcap.rs and taskcap.rs.
#![tactic(auto)]

ghost use Rattle.std.specs.Prelude.{◌≡◌};
ghost use Rattle.mint.specs.Generation.{next_generation};
ghost use Rattle.mint.specs.Entry.{minted_entry, names_of, is_of, ended_entry};
ghost use Rattle.mint.specs.Answer.{mint_error_number, lookup_error_number};

use cap::CapId;
use laws::refusals;
use shown::{Answer, Shown};

pub mod inner;
mod table;

pub use table::{IRQ_BASE, Minted, TASK_BASE, Table};

// One entry of a mint table. A dead one keeps the generation of its last life, so that an id of that life stays worthless.
#[derive(Clone, Copy)]
pub struct Entry {
    pub live: bool,
    pub generation: u16,
    pub number: u32,
}

impl Entry {
    // An entry that was never minted.
    pub const EMPTY: Entry = Entry {
        live: false,
        generation: 0,
        number: 0,
    };
}

pub type MintAnswer = Result<CapId, MintError>;

pub type LookupAnswer = Result<u32, LookupError>;

#[derive(Clone, Copy, PartialEq, Eq)]
pub enum MintError {
    NoFreeEntry = refusals::NO_FREE_ENTRY as isize,
}

#[derive(Clone, Copy, PartialEq, Eq)]
pub enum LookupError {
    BadCap = refusals::BAD_CAP as isize,
}

impl Answer for MintError {
    ghost number_of = { mint_error_number };

    fn shown(self) -> Shown {
        Shown::new(self as u8, &[])
    }
}

impl Answer for LookupError {
    ghost number_of = { lookup_error_number };

    fn shown(self) -> Shown {
        Shown::new(self as u8, &[])
    }
}

// 1 after 65,535, otherwise one more. So none is 0, which is what an entry that was never minted carries.
#[tactic(auto, using(laws::proofs::Cases::cases), unfolding(crate::specs::Generation::next_generation))]
pub fn next_generation(g: u16) -> u16
    ensures { result ≡ next_generation g }
{
    if g == 65535 {
        return 1;
    }
    g + 1
}

// The entry `e` in its next life, for `number`.
pub fn minted(e: Entry, number: u32) -> Entry
    ensures { result ≡ minted_entry e number }
{
    Entry {
        live: true,
        generation: next_generation(e.generation),
        number,
    }
}

// What `e` answers to an id of `generation`.
#[tactic(auto, using(laws::proofs::Cases::cases), unfolding(crate::specs::Entry::names_of))]
pub fn names(e: Entry, generation: u16) -> LookupAnswer
    ensures { result ≡ names_of e generation }
{
    if !e.live {
        return Err(LookupError::BadCap);
    }
    if e.generation != generation {
        return Err(LookupError::BadCap);
    }
    Ok(e.number)
}

// Whether `e` is live and stores `number`.
pub fn is_of(e: Entry, number: u32) -> bool
    ensures { result ≡ is_of e number }
{
    e.live & (e.number == number)
}

// The entry `e` dead: its generation and its number stay.
pub fn ended(e: Entry) -> Entry
    ensures { result ≡ ended_entry e }
{
    Entry { live: false, ..e }
}
