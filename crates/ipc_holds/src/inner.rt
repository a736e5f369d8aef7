// Holds on a table that is known to be sound. Only proved code can call these: each caller shows `Sound` of the table that it lends.
ghost use Rattle.std.specs.Prelude.{◌≡◌};
ghost use Rattle.ipc_rules.specs.Sound.{Sound};
ghost use Rattle.ipc_rules.specs.Holds.{registered, registered_all, register_of, release_of};

use cap::{CapRights, Slot};
use ipc_parts::mailboxes::{fewer, more, reaps};
use ipc_parts::opening::open;
use ipc_rules::answers::{RegisterAnswer, RegisterError, Releasing};
use ipc_rules::opening::Opening;
use ipc_rules::state::{MAX_ENDPOINTS, NOBODY, Table};
use shown::Answered;

// One hold, where the slot's id opens for send.
#[tactic(auto, using(ipc_rules::proofs::Openings::open_box))]
pub fn register_one(mut t: Table, slot: Slot) -> Table
    requires { Sound t }
    ensures { result ≡ registered t slot }
{
    if !slot.present {
        return t;
    }
    let i = slot.id.index() as usize;
    let ep = t.endpoints[i % MAX_ENDPOINTS];
    let Opening::Opens(k) = open(i < t.sizes.endpoints, ep, slot.id, CapRights::SEND) else {
        return t;
    };
    t.mailboxes[k] = more(t.mailboxes[k]);
    t
}

// One hold for each of four slots.
pub fn register_four(mut t: Table, slots: [Slot; 4]) -> Table
    requires { Sound t }
    ensures { result ≡ registered_all t slots }
{
    for slot in slots {
        t = register_one(t, slot);
    }
    t
}

// One hold for each present id of the list that opens for send.
pub fn register_holds(mut t: Table, list: &[u64]) -> Answered<RegisterAnswer, Table>
    requires { Sound t }
    ensures { result ≡ register_of t list.now }
{
    if !cap::words_read(list) {
        return Answered {
            answer: Err(RegisterError::BadWord),
            table: t,
        };
    }
    for word in list {
        t = register_one(t, cap::slot_of(*word));
    }
    Answered {
        answer: Ok(()),
        table: t,
    }
}

// One hold off for each of four slots; the waiters of ephemeral mailboxes that lost their last one, from the first place on.
#[tactic(auto, using(ipc_rules::proofs::Openings::open_box))]
pub fn release_holds(mut t: Table, slots: [Slot; 4]) -> Releasing
    requires { Sound t }
    ensures { result ≡ release_of t slots }
{
    let mut waiters = [NOBODY; 4];
    let mut woken = 0;
    for slot in slots {
        if !slot.present {
            continue;
        }
        let i = slot.id.index() as usize;
        let ep = t.endpoints[i % MAX_ENDPOINTS];
        let Opening::Opens(k) = open(i < t.sizes.endpoints, ep, slot.id, CapRights::SEND) else {
            continue;
        };
        let b = &mut t.mailboxes[k];
        *b = fewer(*b);
        if reaps(*b) {
            waiters[woken] = b.waiter;
            woken += 1;
            b.waiter = NOBODY;
        }
    }
    Releasing {
        answer: Ok(()),
        waiters,
        table: t,
    }
}
