// Operations 13 to 18: the calls on the rows.
ghost use Rattle.std.specs.Prelude.{◌≡◌};
ghost use Rattle.operations.specs.Done.{packed};
ghost use Rattle.operations.specs.Rows.{get_done, holds_done, seed_done, install_done, transfer_done, drain_done};

use crate::operands::{id_at, index_at};
use crate::{Outcome, Tables};
use logread::list_words;
use shown::Answer;

// 13.
pub fn op_get(t: Tables, log: &[u8]) -> Outcome
    ensures { result ≡ packed (get_done log.now t) }
{
    let answer = capslots::get(t.rows, index_at(log, 3), index_at(log, 4));
    Outcome {
        shown: answer.shown(),
        tables: t,
    }
}

// 14: a question that nothing refuses.
pub fn op_holds(t: Tables, log: &[u8]) -> Outcome
    ensures { result ≡ packed (holds_done log.now t) }
{
    let yes = capslots::holds(t.rows, index_at(log, 3), id_at(log, 4));
    Outcome {
        shown: capslots::holds_shown(yes),
        tables: t,
    }
}

// 15.
pub fn op_seed(mut t: Tables, log: &[u8]) -> Outcome
    ensures { result ≡ packed (seed_done log.now t) }
{
    let words = list_words(log, 4);
    let seeded = capslots::seed(t.rows, index_at(log, 3), &words);
    let answer = seeded.answer;
    let rows = seeded.table;
    t.rows = rows;
    Outcome {
        shown: answer.shown(),
        tables: t,
    }
}

// 16.
pub fn op_install(mut t: Tables, log: &[u8]) -> Outcome
    ensures { result ≡ packed (install_done log.now t) }
{
    let row = index_at(log, 3);
    let slot = index_at(log, 4);
    let installed = capslots::install(t.rows, row, slot, id_at(log, 5));
    let answer = installed.answer;
    let rows = installed.table;
    t.rows = rows;
    Outcome {
        shown: answer.shown(),
        tables: t,
    }
}

// 17.
pub fn op_transfer(mut t: Tables, log: &[u8]) -> Outcome
    ensures { result ≡ packed (transfer_done log.now t) }
{
    let from_row = index_at(log, 3);
    let from_slot = index_at(log, 4);
    let to_row = index_at(log, 5);
    let to_slot = index_at(log, 6);
    let transferred = capslots::transfer(t.rows, from_row, from_slot, to_row, to_slot);
    let answer = transferred.answer;
    let rows = transferred.table;
    t.rows = rows;
    Outcome {
        shown: answer.shown(),
        tables: t,
    }
}

// 18: nothing refuses it.
pub fn op_drain(mut t: Tables, log: &[u8]) -> Outcome
    ensures { result ≡ packed (drain_done log.now t) }
{
    let drained = capslots::drain(t.rows, index_at(log, 3));
    let slots = drained.slots;
    let rows = drained.table;
    t.rows = rows;
    Outcome {
        shown: capslots::drain_shown(slots),
        tables: t,
    }
}
