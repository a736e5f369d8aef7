// The channel table: what it is made of and what each call on it answers, by number. Ported from ipc.rs.
//
// The rules of the calls are in specs/ and the laws about them in proofs/. The code of the calls stands above this crate, so that whoever
// reasons about them rests on the rules alone.
#![tactic(auto)]

pub mod answers;
pub mod opening;
pub mod showing;
pub mod state;
