// How a table and its channels begin and end: a table made, a channel created and revoked, a task that waits no more, a refusal noted.
#![tactic(auto)]

pub mod inner;
pub mod making;
