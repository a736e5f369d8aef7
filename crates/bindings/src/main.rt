// Reads cases of `bind` on standard input and writes the answer to each, one line a case, in which the form on words and the form on
// slot records agree. Damaged input, a case that is cut short or has a flag above 1, ends with `bad` and that case's offset.
#![tactic(auto)]

ghost use Rattle.std.specs.Prelude.{◌≤◌, length};

use manifest::AgentEntry;
use std::io::Read;

mod case;
mod line;
mod slots;

#[derive(Drop)]
struct Damaged;

// How many bytes came: a read that fails is the input's end here.
fn taken<R: Read>(reader: &mut R, bytes: &mut [u8]) -> usize {
    standard::take(reader, bytes).unwrap_or_else(|broken| broken.got)
}

// Writes what bind answers to the words and, where they all read, to the records that they stand for: one line where the two agree. A
// second one is expected nowhere.
fn answer_both<P: Print>(to: &P, entry: AgentEntry, held: &[u64])
    requires { length held.now ≤ 255 }
{
    let by_words = manifest::bind(entry, held);
    line::write(to, by_words);
    if cap::words_read(held) {
        let by_slots = slots::bind(entry, slots::records(held), held.len());
        if !line::same(by_words, by_slots) {
            line::write(to, by_slots);
        }
    }
}

// Reads the held words and answers, where they are not cut short.
fn answer<R: Read, P: Print>(
    reader: &mut R,
    to: &P,
    head: [u8; case::HEAD],
    bytes: &mut [u8],
    held: &mut [u64],
) -> Result<(), Damaged>
    requires { length held.old ≤ 255 }
{
    if taken(reader, bytes) < bytes.len() {
        return Err(Damaged);
    }
    case::read_words(bytes, held);
    answer_both(to, case::entry(head), held);
    Ok(())
}

// Answers the next case and says how many bytes it had; None at the input's end.
fn answer_one<R: Read, P: Print>(reader: &mut R, to: &P) -> Result<Option<u64>, Damaged> {
    let mut head = [0; case::HEAD];
    let got = taken(reader, &mut head);
    if got == 0 {
        return Ok(None);
    }
    if (got < case::HEAD) | !case::flags_fit(head) {
        return Err(Damaged);
    }
    let count = case::count(head);
    let size = 8 * count;
    let mut bytes = [0; case::MOST_BYTES];
    let mut held = [0; case::MOST_HELD];
    answer(reader, to, head, &mut bytes[..size], &mut held[..count])?;
    Ok(Some((case::HEAD + size) as u64))
}

// A proved loop has to end, and nothing says that the input does. So turns are counted, up to a number that no run reaches.
fn main(rt: HostRuntime) {
    let mut reader = rt.stdin();
    let mut at: u64 = 0;
    for _ in 0..u32::MAX {
        match answer_one(&mut reader, &rt) {
            Ok(Some(size)) => at = at.saturating_add(size),
            Ok(None) => return,
            Err(Damaged) => return line::write_bad(&rt, at),
        }
    }
}
