// The calls that take a record where it stands: the held list as a lent slice of slot records, and the refusal counts lent and raised.
//
// The calls on words and on whole tables remain, and agree with these.
#![tactic(auto)]

pub mod binding;
pub mod counts;
pub mod holds;

pub use binding::bind;
pub use counts::{note_authority_refusal, note_state_refusal};
pub use holds::register_holds;
