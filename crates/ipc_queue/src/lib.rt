// What passes through a mailbox: messages in and out, a task that waits for one, and the looks at what is there.
#![tactic(auto)]

pub mod inner;
