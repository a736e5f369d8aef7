// Operations 19 to 23: the calls on the two mint tables.
ghost use Rattle.std.specs.Prelude.{◌≡◌};
ghost use Rattle.operations.specs.Done.{packed};
ghost use Rattle.operations.specs.Mints.{task_mint_done, task_lookup_done, task_end_done, irq_mint_done, irq_lookup_done};

use crate::operands::id_at;
use crate::{Outcome, Tables};
use logread::u32_at;
use shown::Answer;

// 19.
pub fn op_task_mint(mut t: Tables, log: &[u8]) -> Outcome
    ensures { result ≡ packed (task_mint_done log.now t) }
{
    let minted = taskcap::mint(t.tasks, u32_at(log, 3));
    let answer = minted.answer;
    let tasks = minted.table;
    t.tasks = tasks;
    Outcome {
        shown: answer.shown(),
        tables: t,
    }
}

// 20.
pub fn op_task_lookup(t: Tables, log: &[u8]) -> Outcome
    ensures { result ≡ packed (task_lookup_done log.now t) }
{
    let answer = taskcap::lookup(t.tasks, id_at(log, 3));
    Outcome {
        shown: answer.shown(),
        tables: t,
    }
}

// 21: nothing refuses it.
pub fn op_task_end(mut t: Tables, log: &[u8]) -> Outcome
    ensures { result ≡ packed (task_end_done log.now t) }
{
    let ended = taskcap::revoke_task(t.tasks, u32_at(log, 3));
    let tasks = ended.table;
    t.tasks = tasks;
    Outcome {
        shown: taskcap::revoke_shown(ended.count),
        tables: t,
    }
}

// 22.
pub fn op_irq_mint(mut t: Tables, log: &[u8]) -> Outcome
    ensures { result ≡ packed (irq_mint_done log.now t) }
{
    let minted = irqcap::mint(t.irqs, u32_at(log, 3));
    let answer = minted.answer;
    let irqs = minted.table;
    t.irqs = irqs;
    Outcome {
        shown: answer.shown(),
        tables: t,
    }
}

// 23.
pub fn op_irq_lookup(t: Tables, log: &[u8]) -> Outcome
    ensures { result ≡ packed (irq_lookup_done log.now t) }
{
    let answer = irqcap::lookup(t.irqs, id_at(log, 3));
    Outcome {
        shown: answer.shown(),
        tables: t,
    }
}
