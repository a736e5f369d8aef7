// A channel made: a mailbox and its two ends.
ghost use Rattle.std.specs.Prelude.{◌≡◌};
ghost use Rattle.ipc_rules.specs.Sound.{Sound};
ghost use Rattle.ipc_rules.specs.Create.{free_mailbox, free_endpoint, create_of};

use cap::{CapId, CapRights};
use ipc_parts::inner::new_endpoint;
use ipc_parts::mailboxes::new_mailbox;
use ipc_rules::answers::{CreateAnswer, CreateError};
use ipc_rules::state::{Channel, Table};
use shown::Answered;

// Document 01: "loop yields the free mailbox or endpoint place by break".
#[tactic(auto, using(laws::proofs::Search::searching))]
fn free_mailbox(t: Table) -> Option<usize>
    requires { Sound t }
    ensures { result ≡ free_mailbox t }
{
    let mut i = 0;
    loop {
        if i >= t.sizes.mailboxes {
            break None;
        }
        if !t.mailboxes[i].is_live() {
            break Some(i);
        }
        i += 1;
    }
}

// Document 01: "loop yields the free mailbox or endpoint place by break".
#[tactic(auto, using(laws::proofs::Search::searching))]
fn free_endpoint(t: Table, from: usize) -> Option<usize>
    requires { Sound t }
    ensures { result ≡ free_endpoint t from }
{
    let mut i = from;
    loop {
        if i >= t.sizes.endpoints {
            break None;
        }
        if !t.endpoints[i].is_live() {
            break Some(i);
        }
        i += 1;
    }
}

// Both ends carry the present generation: they name the same channel at the same moment in time.
#[tactic(auto, using(laws::proofs::Search::found_below))]
pub fn create(mut t: Table, ephemeral: bool) -> Answered<CreateAnswer, Table>
    requires { Sound t }
    ensures { result ≡ create_of t ephemeral }
{
    let Some(k) = free_mailbox(t) else {
        return Answered {
            answer: Err(CreateError::NoMailbox),
            table: t,
        };
    };
    let Some(s) = free_endpoint(t, 0) else {
        return Answered {
            answer: Err(CreateError::NoEndpoint),
            table: t,
        };
    };
    let Some(r) = free_endpoint(t, s + 1) else {
        return Answered {
            answer: Err(CreateError::NoEndpoint),
            table: t,
        };
    };
    let generation = t.counters.next_gen;
    t.mailboxes[k] = new_mailbox(ephemeral);
    t.endpoints[s] = new_endpoint(generation, CapRights::SEND, k);
    t.endpoints[r] = new_endpoint(generation, CapRights::RECV, k);
    t.counters.next_gen = mint::next_generation(generation);
    let ends = Channel {
        send: CapId::new(s as u16, generation),
        recv: CapId::new(r as u16, generation),
    };
    Answered {
        answer: Ok(ends),
        table: t,
    }
}
