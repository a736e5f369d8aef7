// Answers on standard output, as document 01's log shows them: a space before each number. A write that fails is not told: what is printed
// is compared with what is expected.
use cap::Slot;
use ipc_rules::state::Refusals;
use shown::Shown;

pub fn text<P: Print>(to: &P, bytes: &[u8]) {
    let _ = to.write_all(bytes);
}

pub fn value<P: Print>(to: &P, n: u64) {
    let _ = print!(to; " {n}");
}

pub fn end<P: Print>(to: &P) {
    let _ = println!(to);
}

// The number, and the values that are shown.
pub fn answer<P: Print>(to: &P, s: Shown) {
    value(to, s.number as u64);
    for n in s.values.iter().take(s.count) {
        value(to, *n);
    }
}

// Of each 0, or 1 and the id.
pub fn slots<P: Print>(to: &P, four: [Slot; 4]) {
    for s in &four {
        let _ = if s.present {
            print!(to; " 1 {}", s.id.raw)
        } else {
            print!(to; " 0")
        };
    }
}

// Authority, full, state.
pub fn counts<P: Print>(to: &P, r: Refusals) {
    let _ = print!(to; " {} {} {}", r.authority, r.full, r.state);
}
