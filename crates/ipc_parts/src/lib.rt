// The code that works on one record of a channel table: an endpoint, a mailbox, a waiter, a count. No function here takes a table, so that
// none copies one.
#![tactic(auto, using(laws::proofs::Cases::cases))]

pub mod counts;
pub mod endpoints;
pub mod inner;
pub mod mailboxes;
pub mod opening;
pub mod waiters;
