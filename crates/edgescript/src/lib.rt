// What the programs that try edges share: their script on standard input, its numbers as operands, answers on standard output, and tables
// that no call makes. No rule stands here.
#![tactic(auto)]

pub mod broken;
pub mod operands;
pub mod print;
pub mod script;
