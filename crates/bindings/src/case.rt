// The bytes of a case: a pool byte, four times a presence byte and an index byte, a count, and that many words of eight bytes,
// little-endian.
ghost use Rattle.std.specs.Prelude.{◌≤◌};

use manifest::AgentEntry;

// The bytes before the held words.
pub(crate) const HEAD: usize = 10;

pub(crate) const MOST_HELD: usize = 255;

pub(crate) const MOST_BYTES: usize = 8 * MOST_HELD;

// How many words the head announces.
pub(crate) fn count(head: [u8; HEAD]) -> usize
    ensures { result ≤ 255 }
{
    head[9] as usize
}

// Whether the pool byte and the presence bytes are 0 or 1.
pub(crate) fn flags_fit(head: [u8; HEAD]) -> bool {
    let flags = [head[0], head[1], head[3], head[5], head[7]];
    flags.iter().all(|flag| *flag <= 1)
}

fn want(presence: u8, index: u8) -> Option<u8> {
    (presence == 1).then_some(index)
}

pub(crate) fn entry(head: [u8; HEAD]) -> AgentEntry {
    let [pool, a, i, b, j, c, k, d, l, _] = head;
    AgentEntry {
        slots: [want(a, i), want(b, j), want(c, k), want(d, l)],
        packet_pool: pool == 1,
    }
}

// The words that `bytes` hold, for as many as there is room.
pub(crate) fn read_words(bytes: &[u8], held: &mut [u64]) {
    let (words, _) = bytes.as_chunks::<8>();
    for (place, word) in held.iter_mut().zip(words) {
        *place = u64::from_le_bytes(*word);
    }
}
