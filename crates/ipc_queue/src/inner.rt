// The calls on a table that is known to be sound. Only proved code can call them: each caller shows `Sound` of the table that it lends.
pub mod looks;
pub mod queue;

pub use looks::{queued, send_holders, why_shut};
pub use queue::{park, send, try_recv};
