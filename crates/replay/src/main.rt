// Reads an operation log on standard input and prints a line for each record, then `end` and their number, or `bad`, an offset and a
// fault's number.
#![tactic(auto)]

fn main(rt: HostRuntime) {
    player::play(&rt);
}
