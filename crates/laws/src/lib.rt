// Definitions and laws that every crate shares, and no function: the choices, searches and tests of specs/, and what proofs/ shows of them.
#![tactic(auto)]

pub mod refusals;
