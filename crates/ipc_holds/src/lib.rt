// Holds on the send end of a mailbox, counted up and down.
#![tactic(auto)]

pub mod inner;
