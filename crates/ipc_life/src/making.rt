// A table as when fresh.
ghost use Rattle.std.specs.Prelude.{◌≡◌};
ghost use Rattle.ipc_rules.specs.Make.{new_of, fresh_of};

use ipc_rules::answers::{NewAnswer, NewError};
use ipc_rules::state::{
    Counters, FRESH_ENDPOINT, FRESH_MAILBOX, FRESH_MESSAGE, Refusals, Sizes, Table,
};
use ipc_sound::in_range;
use shown::Answered;

fn fresh_table(sizes: Sizes) -> Table
    ensures { result ≡ fresh_of sizes }
{
    Table {
        sizes,
        endpoints: [FRESH_ENDPOINT; 64],
        mailboxes: [FRESH_MAILBOX; 32],
        messages: [FRESH_MESSAGE; 256],
        counters: Counters {
            next_gen: 1,
            refusals: Refusals {
                authority: 0,
                full: 0,
                state: 0,
            },
        },
    }
}

// A fresh table; outside the sizes 20, and with it a fresh table of sizes 0, 0, 1. Generations start at 1, so that 0 is never a live one.
#[tactic(auto, using(laws::proofs::Cases::cases), unfolding(ipc_rules::specs::Make::new_of))]
pub fn new(mailboxes: usize, endpoints: usize, depth: usize) -> Answered<NewAnswer, Table>
    ensures { result ≡ new_of mailboxes endpoints depth }
{
    let sizes = Sizes {
        mailboxes,
        endpoints,
        depth,
    };
    if in_range(sizes) {
        Answered {
            answer: Ok(()),
            table: fresh_table(sizes),
        }
    } else {
        Answered {
            answer: Err(NewError::BadSizes),
            table: fresh_table(Sizes {
                mailboxes: 0,
                endpoints: 0,
                depth: 1,
            }),
        }
    }
}
