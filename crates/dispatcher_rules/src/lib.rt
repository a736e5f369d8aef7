// The job dispatcher: what it is made of and what each call on it answers, by number. Ours; request No. 5.
//
// The rules of the calls are in specs/, with what they promise on every input, and the laws about them in proofs/. The code of the calls stands above this crate, so that whoever
// reasons about them rests on the rules alone.
#![tactic(auto)]

pub mod answers;
pub mod showing;
pub mod state;
