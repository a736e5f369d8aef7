// Whether a channel table that was lent is one that the calls keep: the test before every call, refusal 27.
#![tactic(auto)]

ghost use Rattle.std.specs.Prelude.{◌≡◌, true, ℕ, ◌<◌, ◌≤◌, get_or};
ghost use Rattle.laws.specs.Every.{every};
ghost use Rattle.laws.specs.Pick.{pick};
ghost use Rattle.ipc_rules.specs.Make.{in_range};
ghost use Rattle.ipc_rules.specs.Sound.{Sound};
ghost use Rattle.ipc_sound.specs.SoundTest.{is_end, place_test, place_ok, LastOf, endpoint_ok, waiter_test, IsPlace, ends_ok, mailbox_ok, sound_test};

use cap::CapRights;
use ipc_rules::state::{
    Endpoint, FRESH_ENDPOINT, FRESH_MAILBOX, FRESH_MESSAGE, MAX_DEPTH, MAX_ENDPOINTS,
    MAX_MAILBOXES, Mailbox, Message, Sizes, Table,
};

pub fn in_range(z: Sizes) -> bool
    ensures { result ≡ in_range z }
{
    (z.mailboxes <= MAX_MAILBOXES)
        & (z.endpoints <= MAX_ENDPOINTS)
        & (1 <= z.depth)
        & (z.depth <= MAX_DEPTH)
}

fn place_test(m: Message, live: bool, p: usize, d: usize) -> bool
    ensures { result ≡ place_test m live p d }
{
    (m == FRESH_MESSAGE) | (live & (p < d))
}

fn places_ok(t: &Table) -> bool
    ensures { result ≡ every (place_ok t.now) 256 }
{
    let mut ok = true;
    for (i, m) in t.messages.iter().enumerate() {
        let live = t.mailboxes[i / MAX_DEPTH].is_live();
        ok &= place_test(*m, live, i % MAX_DEPTH, t.sizes.depth);
    }
    ok
}

// For each mailbox the place of an endpoint.
#[derive(Clone, Copy)]
struct Last {
    at: [Option<u8>; 32],
}

#[derive(Clone, Copy)]
struct Ends {
    send: Last,
    recv: Last,
}

impl Last {
    fn note(&mut self, e: Endpoint, w: CapRights, i: usize)
        requires { i < 64 }
        ensures { (k : ℕ) → k < 32 → get_or self.new.at k None ≡ pick (is_end e w k) (Some i) (get_or self.old.at k None) }
    {
        if e.is_live() & (e.rights == w) & (e.mailbox < 32) {
            self.at[usize::from(e.mailbox)] = Some(i as u8);
        }
    }
}

// The last live end of each right that each mailbox has. One pass: an end that is not the last is a second.
fn last_ends(es: &[Endpoint; 64]) -> Ends
    ensures { LastOf es.now result }
{
    let mut send = Last { at: [None; 32] };
    let mut recv = Last { at: [None; 32] };
    for (i, e) in es.iter().enumerate() {
        send.note(*e, CapRights::SEND, i);
        recv.note(*e, CapRights::RECV, i);
    }
    Ends { send, recv }
}

// An end that is not the last of its right and its mailbox is a second.
fn endpoint_ok(i: usize, n: usize, es: &[Endpoint; 64], bs: &[Mailbox; 32], l: &Ends) -> bool
    requires last { LastOf es.now l.now }
    requires inside { i < 64 }
    ensures { result ≡ endpoint_ok n es.now bs.now i }
{
    let e = es[i];
    if !e.is_live() {
        return (i < n) | (e == FRESH_ENDPOINT);
    }
    let k = usize::from(e.mailbox);
    if k >= MAX_MAILBOXES {
        return false;
    }
    let here = Some(i as u8);
    let send = (e.rights == CapRights::SEND) & (l.send.at[k] == here);
    let recv = (e.rights == CapRights::RECV) & (l.recv.at[k] == here);
    (i < n) & bs[k].is_live() & (send | recv)
}

fn endpoints_ok(n: usize, es: &[Endpoint; 64], bs: &[Mailbox; 32], l: &Ends) -> bool
    requires { LastOf es.now l.now }
    ensures { result ≡ every (endpoint_ok n es.now bs.now) 64 }
{
    let mut ok = true;
    for i in 0..MAX_ENDPOINTS {
        ok &= endpoint_ok(i, n, es, bs, l);
    }
    ok
}

fn waiter_test(b: Mailbox) -> bool
    ensures { result ≡ waiter_test b }
{
    !b.waiter.present | ((b.ring.len == 0) & (!b.ephemeral | (0 < b.send_holders)))
}

fn ends_ok(es: &[Endpoint; 64], s: Option<u8>, r: Option<u8>) -> bool
    requires { IsPlace s × IsPlace r }
    ensures { result ≡ ends_ok es.now s r }
{
    let (Some(s), Some(r)) = (s, r) else {
        return false;
    };
    let g = es[usize::from(s)].generation;
    (g == es[usize::from(r)].generation) & (g != 0)
}

fn mailbox_ok(
    k: usize,
    m: usize,
    d: usize,
    es: &[Endpoint; 64],
    bs: &[Mailbox; 32],
    l: &Ends,
) -> bool
    requires last { LastOf es.now l.now }
    requires inside { k < 32 }
    requires shallow { d ≤ 8 }
    ensures { result ≡ mailbox_ok m d es.now bs.now k }
{
    let b = bs[k];
    if !b.is_live() {
        return b == FRESH_MAILBOX;
    }
    let ends = ends_ok(es, l.send.at[k], l.recv.at[k]);
    (k < m) & ends & ring::inner::is_ring(b.ring, d) & waiter_test(b)
}

fn mailboxes_ok(m: usize, d: usize, es: &[Endpoint; 64], bs: &[Mailbox; 32], l: &Ends) -> bool
    requires last { LastOf es.now l.now }
    requires shallow { d ≤ 8 }
    ensures { result ≡ every (mailbox_ok m d es.now bs.now) 32 }
{
    let mut ok = true;
    for k in 0..MAX_MAILBOXES {
        ok &= mailbox_ok(k, m, d, es, bs, l);
    }
    ok
}

// The answer is the test's, and a table that passes it is sound: its lists have the lengths that their types say.
pub fn sound(t: Table) -> bool
    ensures { (result ≡ sound_test t) × (result ≡ true → Sound t) }
{
    let z = t.sizes;
    if !in_range(z) {
        return false;
    }
    let es = &t.endpoints;
    let bs = &t.mailboxes;
    let l = last_ends(es);
    (t.counters.next_gen != 0)
        & endpoints_ok(z.endpoints, es, bs, &l)
        & mailboxes_ok(z.mailboxes, z.depth, es, bs, &l)
        & places_ok(&t)
}
