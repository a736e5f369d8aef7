// The calls on the channel table and on the rows as a script of edges makes them: operands from the numbers of a line, the answer printed. No
// rule stands here.
#![tactic(auto)]

pub mod channels;
pub mod rows;
