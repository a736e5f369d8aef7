// The mint of a table, by a base above which there is room for an id of each entry.
ghost use Rattle.std.specs.Prelude.{◌≡◌, ◌+◌, ◌≤◌};
ghost use Rattle.mint.specs.Table.{mint_in};

use crate::MintError;
use crate::table::{Minted, Table, free_entry};
use cap::CapId;
use shown::Answered;

// An id for `number`.
#[tactic(auto, using(crate::proofs::Free::first_free), unfolding(crate::specs::Entries::mint_with, laws::specs::Search::found))]
pub fn mint<const N: usize>(mut t: Table<N>, base: u16, number: u32) -> Minted<N>
    requires { base + N ≤ 65536 }
    ensures { result ≡ mint_in N base t.entry number }
{
    let Some(i) = free_entry(&t.entries) else {
        return Answered {
            answer: Err(MintError::NoFreeEntry),
            table: t,
        };
    };
    let e = &mut t.entries[i];
    *e = crate::minted(*e, number);
    let id = CapId::new(base + i as u16, e.generation);
    Answered {
        answer: Ok(id),
        table: t,
    }
}
