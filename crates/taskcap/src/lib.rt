// Task ids: 32 entries over task numbers, freed when the task ends. Ported from taskcap.rs.
#![tactic(auto)]

ghost use Rattle.std.specs.Prelude.{◌≡◌};
ghost use Rattle.laws.specs.Refusals.{none};
ghost use Rattle.shown.specs.Shown.{shown};
ghost use Rattle.taskcap.specs.Table.{fresh_table, mint_of, lookup_of, revoke_of, revoke_values};

use cap::CapId;
use laws::refusals;
use mint::{LookupAnswer, TASK_BASE};
use shown::Shown;

// How many task ids may be live at once: a bound of its own, below the number of tasks.
pub const MAX_TASK_CAPS: usize = 32;

// Index band: an id's index is `INDEX_BASE` + entry.
pub const INDEX_BASE: u16 = TASK_BASE;

pub type Table = mint::Table<MAX_TASK_CAPS>;

pub type Minted = mint::Minted<MAX_TASK_CAPS>;

#[derive(Drop)]
pub struct Revoked {
    pub count: u32,
    pub table: Table,
}

pub fn new() -> Table
    ensures { result ≡ fresh_table }
{
    Table::new()
}

// An id that names `task`. Whether that task lives is not the table's to know.
#[tactic(auto, unfolding(crate::specs::Table::mint_of))]
pub fn mint(t: Table, task: u32) -> Minted
    ensures { result ≡ mint_of t task }
{
    mint::inner::mint(t, INDEX_BASE, task)
}

// The task that `cap` names.
#[tactic(auto, unfolding(crate::specs::Table::lookup_of))]
pub fn lookup(t: Table, cap: CapId) -> LookupAnswer
    ensures { result ≡ lookup_of t cap }
{
    t.lookup(INDEX_BASE, cap)
}

// The end of `task`: every live entry that names it dies. Generations stay, so that its ids name nobody who comes later.
pub fn revoke_task(mut t: Table, task: u32) -> Revoked
    ensures { result ≡ revoke_of t task }
{
    let mut count: u32 = 0;
    for e in &mut t.entries {
        if mint::is_of(*e, task) {
            *e = mint::ended(*e);
            count += 1;
        }
    }
    Revoked { count, table: t }
}

// What the end of a task shows of how many entries it ended. Nothing refuses it.
pub fn revoke_shown(count: u32) -> Shown
    ensures { result ≡ shown none (revoke_values count) }
{
    Shown::new(refusals::NONE, &[count as u64])
}
