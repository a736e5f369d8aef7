// The calls on a table that is known to be sound. Only proved code can call them: each caller shows `Sound` of the table that it lends.
pub mod counts;
pub mod creation;
pub mod revocation;
pub mod waiters;

pub use counts::{note_authority_refusal, note_state_refusal};
pub use creation::create;
pub use revocation::revoke_channel;
pub use waiters::clear_waiter;
