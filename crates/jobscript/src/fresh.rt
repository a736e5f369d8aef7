// Operation 0, and the desk that a script starts with.
ghost use Rattle.std.specs.Prelude.{◌≡◌};
ghost use Rattle.jobscript.specs.Done.{packed};
ghost use Rattle.jobscript.specs.Operations.{start_desk, new_done};

use crate::Outcome;
use crate::operands::{index_at, sizes, variants};
use dispatcher_rules::state::{Desk, MAX_VARIANTS, NO_VARIANT};
use shown::Answer;

// Before the first record: fresh tables of sizes 32, 64, 8, and nothing bound.
pub fn start() -> Desk
    ensures { result ≡ start_desk }
{
    let made = ipc_life::making::new(32, 64, 8);
    let bound = dispatcher::make(0, [NO_VARIANT; MAX_VARIANTS]);
    let dispatcher = bound.dispatcher;
    let channels = made.table;
    Desk {
        dispatcher,
        rows: capslots::new(),
        channels,
    }
}

// 0: everything fresh, or everything kept. The sizes are refused before the variants are looked at.
pub fn op_new(desk: Desk, script: &[u8]) -> Outcome
    ensures { result ≡ packed (new_done script.now desk) }
{
    let z = sizes(script);
    let made = ipc_life::making::new(z.mailboxes, z.endpoints, z.depth);
    let sized = made.answer;
    let Ok(()) = sized else {
        return Outcome {
            shown: sized.shown(),
            desk,
        };
    };
    let bound = dispatcher::make(index_at(script, 6), variants(script));
    let answer = bound.answer;
    let shown = answer.shown();
    let Ok(()) = answer else {
        return Outcome { shown, desk };
    };
    let dispatcher = bound.dispatcher;
    let channels = made.table;
    Outcome {
        shown,
        desk: Desk {
            dispatcher,
            rows: capslots::new(),
            channels,
        },
    }
}
