// Tries the calls on the channel table and the rows at their edges, on the compiled code. The script on standard input is made of sentences,
// and most have a colon and then the numbers of a call: which one, by document 01's operations or by `edgescript::broken`, and its operands.
// What is printed is the script with the answer in the place of these numbers. What is expected, in the file stdout, is written from
// document 01.
#![tactic(auto)]

use edgescript::script;

mod joining;

fn main(rt: HostRuntime) {
    script::play(&mut rt.stdin(), &rt, &mut joining::fresh());
}
