// Tries the dispatcher's calls at the edges that no job script reaches, on the compiled code: tables that are not sound, dispatchers that
// break making's rules, ids that the channel table's own calls have ended. The script on standard input is read as that of `edges`, with the
// numbers of `op`. What is expected, in the file stdout, is written from request No. 5 and document 01.
#![tactic(auto)]

use edgescript::script;

mod beside;
mod binding;
mod jobs;
mod op;

fn main(rt: HostRuntime) {
    script::play(&mut rt.stdin(), &rt, &mut jobs::fresh());
}
