// Fresh tables.
ghost use Rattle.std.specs.Prelude.{◌≡◌};
ghost use Rattle.ipc_rules.specs.Make.{new_of};
ghost use Rattle.operations.specs.Channels.{fresh_by};

use crate::Tables;
use ipc_rules::answers::NewAnswer;
use ipc_rules::state::Sizes;

// Tables that nothing happened to, and whether the channel table has the sizes asked for.
#[derive(Clone, Copy)]
pub struct Fresh {
    pub answer: NewAnswer,
    pub tables: Tables,
}

// What operation 0 makes, and where a replay starts. The sizes come as a struct for the optimiser's sake: it sees no constants there and
// leaves this a call. Inlined, it has every copy of the tables in its callers made field by field, and a replay takes 2.5 times as long.
pub fn all_fresh(sizes: Sizes) -> Fresh
    ensures { result ≡ fresh_by (new_of sizes.mailboxes sizes.endpoints sizes.depth) }
{
    let made = ipc_life::making::new(sizes.mailboxes, sizes.endpoints, sizes.depth);
    let answer = made.answer;
    let channels = made.table;
    Fresh {
        answer,
        tables: Tables {
            channels,
            rows: capslots::new(),
            tasks: taskcap::new(),
            irqs: irqcap::new(),
        },
    }
}
