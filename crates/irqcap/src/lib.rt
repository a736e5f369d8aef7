// IRQ notification ids: 8 entries over cookies, never freed. Ported from irqcap.rs.
#![tactic(auto)]

ghost use Rattle.std.specs.Prelude.{◌≡◌};
ghost use Rattle.irqcap.specs.Table.{fresh_table, mint_of, lookup_of};

use cap::CapId;
use mint::{IRQ_BASE, LookupAnswer};

pub const MAX_IRQ_CAPS: usize = 8;

// Index band: an id's index is `INDEX_BASE` + entry, so that it never meets an endpoint's.
pub const INDEX_BASE: u16 = IRQ_BASE;

pub type Table = mint::Table<MAX_IRQ_CAPS>;

pub type Minted = mint::Minted<MAX_IRQ_CAPS>;

pub fn new() -> Table
    ensures { result ≡ fresh_table }
{
    Table::new()
}

// An id that the holder may wait on, for `cookie`.
#[tactic(auto, unfolding(crate::specs::Table::mint_of))]
pub fn mint(t: Table, cookie: u32) -> Minted
    ensures { result ≡ mint_of t cookie }
{
    mint::inner::mint(t, INDEX_BASE, cookie)
}

// The cookie that `cap` names.
#[tactic(auto, unfolding(crate::specs::Table::lookup_of))]
pub fn lookup(t: Table, cap: CapId) -> LookupAnswer
    ensures { result ≡ lookup_of t cap }
{
    t.lookup(INDEX_BASE, cap)
}
